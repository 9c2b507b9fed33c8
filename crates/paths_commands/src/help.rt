//! What the program prints of itself.

/// What `paths --version` writes.
pub const VERSION: &str = "paths 0.3.0\n";

/// What `paths --help` writes.
pub const HELP: &str = "\
paths: lists of paths, taken apart and built path by path

  find . -print0 | paths parent | sort -zu                 the folders, each once
  find . -print0 | paths relative . --keep-going           how each is reached from here
  paths join --checked /srv/a --keep-going <names          names from outside, below /srv/a
  paths parent --lines -- \"$p\"                            the folder of one path

paths components [PLATFORM]        writes the escape of each component on a line, then an empty line
paths parent     [PLATFORM]        writes the path without its last component
paths name       [PLATFORM]        writes the last component, where that is a name
paths stem       [PLATFORM]        writes the name without its extension
paths extension  [PLATFORM]        writes the extension of the name
paths with-extension [PLATFORM] EXT
                                   writes the path with EXT as the extension, or with none if EXT is empty; a path
                                   that doesn't end in a name is written as it is
paths common     [PLATFORM]        writes the longest path that all paths begin with, one result for all, or . if
                                   they share no component; paths with different roots are rejected
paths normalize  [PLATFORM]        writes the path without . and ..; a .. removes the name before it, and a path
                                   with a .. that has none before it is rejected
paths clean      [PLATFORM]        as normalize, but a .. without a name before it stays, or is dropped at a root
paths starts-with [PLATFORM] BASE  writes the path as it is if it begins with the components of BASE, and leaves out
                                   the others
paths join       [PLATFORM] BASE   writes the path after BASE; one with a root or a prefix replaces BASE, and ..
                                   may leave it
paths join --checked [PLATFORM] BASE
                                   writes the path below BASE, and rejects one that could leave it
paths relative   [PLATFORM] BASE   writes the path as it is reached from BASE, which is . for BASE itself, and
                                   rejects one that no path leads to
paths absolute   [PLATFORM] DIR    writes the path as an absolute path, below DIR if it is relative, and rejects one
                                   that can't be made absolute
paths convert    PLATFORM TO       writes the path of the platform TO with the same components, and rejects one
                                   with a component that TO can't have

Each reads paths that are ended by NUL, the last one too. Each but starts-with and common writes one result
for a path, ended by NUL, which is empty where the path has no such part. PLATFORM and TO are unix, windows or
wasm. If PLATFORM is left out it is unix, so an EXT or a BASE of one of these names comes after PLATFORM.

Options may stand anywhere; -- ends them. The operands that come after -- and aren't EXT, BASE, DIR or TO are
the paths, and nothing is read. PLATFORM isn't among them if the command comes before --.

  --checked        join: for names from outside, as in an archive or a request
  --keep-separator join --checked: keep a separator at the end of a path, as an archive has for a folder
  --lines          a newline ends each path that is read and each result, and not NUL; a path with a NUL, or a
                   result with a newline, is rejected
  --unterminated   the last path may lack its end
  --keep-going     pass over rejected paths: a line for each on standard error, and their number at the
                   end; the status is 1 then
  -h, --help       this text
  -V, --version    the version

A path has at most 1048576 bytes; a longer one ends the run in any case. The results are those of Rust's
std::path: empty parts and . name nothing, but for a . at the start, and .. is resolved by normalize, clean,
join --checked and, on windows, absolute alone. An extension comes after the last dot of a name, if that isn't
its first byte. On windows / and \\ separate, and a path may begin with a prefix: C:, \\\\server\\share, \\\\?\\C:,
\\\\?\\UNC\\server\\share, \\\\?\\name or \\\\.\\name.

Status: 0; 1 for a path that is rejected, with its number, from 1, or for paths without a common base; 2 for wrong
arguments; 3 if out of memory; 4 if a read or write fails.
";
