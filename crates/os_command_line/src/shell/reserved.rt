//! Words that a shell doesn't run as a command where they are first on a line. They are listed with
//! their sources in `specs/ReservedWords.antt`, and each of its four lists has a function.
ghost use Rattle.std.specs.Prelude.{◌≡◌};
ghost use Rattle.std.specs.Str.{bytes_eq};
ghost use Rattle.os_command_line.specs.ReservedWords.{posix_words, ksh_words, zsh_words, mksh_words, is_among, ends_with_colon, is_reserved};

/// Whether some shell takes a name for something else than a command where it is first on a line as
/// it is.
pub(crate) fn is_reserved(name: &[u8]) -> bool
    ensures { result ≡ is_reserved name.now }
{
    is_posix_word(name)
        || is_ksh_word(name)
        || is_zsh_word(name)
        || is_mksh_word(name)
        || ends_with_colon(name)
}

/// Whether a name is a reserved word of POSIX.
fn is_posix_word(name: &[u8]) -> bool
    ensures { result ≡ is_among posix_words name.now }
{
    is_word(name, b"case")
        || is_word(name, b"do")
        || is_word(name, b"done")
        || is_word(name, b"elif")
        || is_word(name, b"else")
        || is_word(name, b"esac")
        || is_word(name, b"fi")
        || is_word(name, b"for")
        || is_word(name, b"if")
        || is_word(name, b"in")
        || is_word(name, b"then")
        || is_word(name, b"until")
        || is_word(name, b"while")
}

/// Whether it is a further one of bash, ksh93, mksh, busybox or yash.
fn is_ksh_word(name: &[u8]) -> bool
    ensures { result ≡ is_among ksh_words name.now }
{
    is_word(name, b"coproc")
        || is_word(name, b"function")
        || is_word(name, b"namespace")
        || is_word(name, b"select")
        || is_word(name, b"time")
}

/// Whether it is a further one of zsh.
fn is_zsh_word(name: &[u8]) -> bool
    ensures { result ≡ is_among zsh_words name.now }
{
    is_word(name, b"declare")
        || is_word(name, b"end")
        || is_word(name, b"export")
        || is_word(name, b"float")
        || is_word(name, b"foreach")
        || is_word(name, b"integer")
        || is_word(name, b"local")
        || is_word(name, b"nocorrect")
        || is_word(name, b"noglob")
        || is_word(name, b"readonly")
        || is_word(name, b"repeat")
        || is_word(name, b"run-help")
        || is_word(name, b"typeset")
        || is_word(name, b"which-command")
}

/// Whether it is an alias that mksh begins with.
fn is_mksh_word(name: &[u8]) -> bool
    ensures { result ≡ is_among mksh_words name.now }
{
    is_word(name, b"autoload")
        || is_word(name, b"functions")
        || is_word(name, b"hash")
        || is_word(name, b"history")
        || is_word(name, b"login")
        || is_word(name, b"nameref")
        || is_word(name, b"nohup")
        || is_word(name, b"r")
        || is_word(name, b"type")
}

/// Whether a name is a word.
fn is_word(name: &[u8], word: &[u8]) -> bool
    ensures { result ≡ bytes_eq name.now word.now }
{
    name == word
}

/// Whether a name ends with a colon.
#[tactic(auto, using(crate::proofs::lemmas::ShellFirst::last_colon))]
fn ends_with_colon(name: &[u8]) -> bool
    ensures { result ≡ ends_with_colon name.now }
{
    match name.split_last() {
        Some((last, _)) => *last == b':',
        None => false,
    }
}
