//! What the program prints of itself.

/// What `names --version` writes.
pub const VERSION: &str = "names 0.3.0\n";

/// What `names --help` writes.
pub const HELP: &str = "\
names: lists of file names, one on each line, and back

  find . -print0 | names list >list     an escaped name on each line
  names join <list | xargs -0 ls        the names again, byte for byte
  find . -print0 | names filter --name '*.c' --ignore .gitignore | xargs -0 wc -l
  names tar <a.tar | names filter --name '*.c' | xargs -0 ls -d

names list   [PLATFORM] [GLOB] [OPTION..]  reads names ended by NUL; writes the escape of each on a line
names filter [PLATFORM] [GLOB] [OPTION..]  reads names ended by NUL; writes those that are picked, ended by NUL
names why    [PLATFORM] [GLOB] [OPTION..]  reads names ended by NUL; writes what decides a name, a tab and the name, escaped
names join   [PLATFORM] [OPTION..]         reads lines that list wrote; writes the names, ended by NUL
names check  [PLATFORM] [OPTION..]         reads names ended by NUL; writes nothing
names tar    [PLATFORM] [OPTION..]         reads a tar archive; writes the names of its entries, ended by NUL

PLATFORM is unix, windows or wasm, and unix where it is left out: a GLOB of such a name is written after PLATFORM.
Options may stand anywhere; -- ends them.

  --glob GLOB      list, filter, why: pick the names that GLOB matches, beside those of other GLOBs
  --globs-from FILE
                   list, filter: pick the names that a GLOB of FILE matches: each line, or, if FILE has a NUL, what
                   NUL ends; empty ones are left out
  --name GLOB      list, filter, why: pick by the last component, in any folder: --glob '**/GLOB'
  --exclude GLOB   list, filter: leave out the names that GLOB matches, with -v too: '**/*.o' in any folder
  --ignore FILE    list, filter: leave out what the .gitignore file FILE ignores (unix, wasm)
                   with DIR=FILE, as that of the folder DIR does
                   why: the names that a line of it decides, after that line
  -v, --invert     list, filter: pick the others, which the GLOBs and --ignore leave out
  -i, --ignore-case
                   list, filter, why: GLOB and FILE match without regard to case
  --exit-status    list, filter, why: end with status 1, and no message, if nothing is printed
  --sh             list, join: words that every POSIX shell reads as the names (unix)
  --sh-line        list, join: words on one line, for bash, zsh, ksh93, mksh and busybox (unix)
  --lines          a newline ends each name that is read or written, and not NUL; names with a newline are rejected
  --unterminated   all but tar: the last name, or the last line, may lack its end
  --empty          join: an empty line is an empty name
  --max N          a name may have N bytes, not 1048576
  -h, --help       this text
  -V, --version    the version

The last name without its NUL, or the last line without its newline, is rejected: a list that was cut off ends with one,
and so does one that isn't of such items. join also rejects an empty line, and one that ends in a carriage return.
A line has at most six times as many bytes as a name, and a line of words four times and three more.
With --sh a name with a newline has two lines, which join can't read; with --sh-line it has one. join rejects what
some shell would expand. The shell that reads the words must be in a C or UTF-8 locale. Paste only words of --sh-line
at a prompt: a terminal acts on control characters within the quotes of --sh.

GLOB matches a whole name, ./ and folders too, component by component: * is any run of symbols, ? one symbol,
[a-z] one of these and [!a-z] one of the others, none of them a separator; ** as a whole component is any number
of components; {a,b} is a or b; \\ quotes the character after it. The separator is /. On windows \\ is one as
well, in GLOB too, where it quotes nothing. So **/*.rs matches ./src/a.rs, and *.rs doesn't; --name '*.rs' does.
A GLOB that begins with a dash is written --glob=-x. Arguments are UTF-8: a GLOB of other bytes is given by --globs-from,
whose lines may end with CR LF. A FILE of --globs-from without GLOBs picks no names. A byte order mark is part of its
first GLOB.

FILE of --ignore is read as git reads a .gitignore at the top of the tree, or in DIR. That of the deeper folder decides,
and a later one over those before it. DIR ends at the first =, so a FILE whose name has one is written =FILE. DIR and
names are paths from the top, with or without ./ at the start, and . is the top: /a, a//b and a/../b are rejected. A name
that ends with / is a directory, another isn't: out/ ignores ./out/ and ./out/a, but not ./out.

why writes FILE:LINE:PATTERN for the line of FILE that decides a name, or else GLOB:NUMBER:PATTERN for the first GLOB that
matches it. GLOBs are numbered from 1, as in messages: the operand, those of --glob, those of --name. A FILE with the
name GLOB is written ./GLOB. Nothing is written for the other names.

tar reads the whole archive into memory. It writes each name of an entry that --lines and --max permit, and ends at the
first entry that readers of archives may read in different ways. The message has the first entry that is rejected.

Status: 0; 1 for an invalid name, line or entry, with its number, from 1, or with --exit-status if nothing is printed; 2
for wrong arguments or an invalid GLOB; 3 if out of memory; 4 if a read or write fails, or a FILE can't be read.
";
