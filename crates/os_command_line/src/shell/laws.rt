//! Laws of words. Each is the contract of a function that does nothing.
ghost use Rattle.std.specs.Prelude.{◌≡◌, ◌≤◌, ◌↔◌, ◌∷◌, Bool, true, [], Ok, Result, List, ℕ, map};
ghost use Rattle.std.specs.List.{AllByRecursion};
ghost use Rattle.os_command_line.specs.Charset.{IsCharset, double_byte, single_bytes};
ghost use Rattle.os_command_line.specs.Fish.{IsFishText};
ghost use Rattle.os_command_line.specs.PowerShell.{IsPowerShellText};
ghost use Rattle.os_command_line.specs.ReservedWords.{first_word, line_words};
ghost use Rattle.os_command_line.specs.Shell.{AreWords, HasOneFault, IsRead, IsTextOf, Reads};
ghost use Rattle.os_command_line.specs.Shell.Outcome.{Word};
ghost use Rattle.os_command_line.specs.ShellCharacters.{IsCharacterLine, IsCharacterText, Reads as ReadsCharacters};
ghost use Rattle.os_command_line.specs.ShellParts.{AreLineParts};
ghost use Rattle.os_command_line.specs.ShellWriting.{AreBytes, HasNoNul, IsLineText, IsLineWord, quoted_word, join_words};
ghost use Rattle.os_command_line.specs.declared.shell.fault.WordsFault.{WordsFault};
ghost use Rattle.os_command_line.specs.declared.shell.language.Language.{Language};

/// Each line is read in one way, in each language: as words, and then at most one fault.
pub fn lines()
    ensures some { (l : Language) → (line : List ℕ) → (items : List (Result (List ℕ) WordsFault))
        × IsRead l line items }
    ensures one { (l : Language) → (line : List ℕ) → (xs : List (Result (List ℕ) WordsFault))
        → (ys : List (Result (List ℕ) WordsFault)) → IsRead l line xs → IsRead l line ys → xs ≡ ys }
    ensures one_fault { (l : Language) → (line : List ℕ)
        → (items : List (Result (List ℕ) WordsFault)) → IsRead l line items → HasOneFault items }
{}

/// Each byte of a line belongs to a gap, to a mark or to a word, up to the fault if the line has
/// one.
#[tactic(auto, using(crate::proofs::lemmas::ShellParts::line_parts))]
pub fn parts()
    ensures { (l : Language) → (line : List ℕ) → (items : List (Result (List ℕ) WordsFault))
        → IsRead l line items → AreLineParts line items }
{}

/// The word of a name is read as the name in each language, whatever blank or end comes after it. A
/// text that is read as a name is read as no other, and is a line of this word alone. Names with
/// equal words are equal. A line of the words of names is read as these names and has no fault,
/// also where the first is quoted because it is reserved.
pub fn words()
    ensures read { (l : Language) → (name : List ℕ) → AreBytes name
        → IsTextOf l (quoted_word name) name }
    ensures one { (l : Language) → (text : List ℕ) → (a : List ℕ) → (b : List ℕ)
        → IsTextOf l text a → IsTextOf l text b → a ≡ b }
    ensures one_name { (a : List ℕ) → (b : List ℕ) → AreBytes a → AreBytes b
        → quoted_word a ≡ quoted_word b → a ≡ b }
    ensures alone { (l : Language) → (text : List ℕ) → (word : List ℕ) → IsTextOf l text word
        → IsRead l text (Ok word ∷ []) }
    ensures joined { (l : Language) → (names : List (List ℕ)) → AllByRecursion AreBytes names
        → AreWords l (join_words (map quoted_word names)) names }
    ensures line { (l : Language) → (names : List (List ℕ)) → AllByRecursion AreBytes names
        → AreWords l (join_words (line_words names)) names }
{}

/// The word of a name on one line is valid UTF-8, each of its characters stays on the line, and no
/// other name has it. It is read as the name, whatever blank or end comes after it. If each
/// character of the name stays on the line, each language reads it so, and else each language with
/// `$'..'`.
pub fn line_words()
    ensures stays { (name : List ℕ) → (text : List ℕ) → AreBytes name → IsLineWord name text
        → IsLineText text }
    ensures one_name { (text : List ℕ) → (a : List ℕ) → (b : List ℕ) → AreBytes a → HasNoNul a
        → AreBytes b → HasNoNul b → IsLineWord a text → IsLineWord b text → a ≡ b }
    ensures shown { (l : Language) → (name : List ℕ) → (text : List ℕ) → AreBytes name
        → IsLineText name → IsLineWord name text → IsTextOf l text name }
    ensures hidden { (l : Language) → (name : List ℕ) → (text : List ℕ) → l.dollar_quotes ≡ true
        → AreBytes name → HasNoNul name → ¬ (IsLineText name) → IsLineWord name text
        → IsTextOf l text name }
{}

/// In each charset in which tab, newline, space, `"`, `$` and `'` are part of no longer character,
/// the characters of a name's word are read as the name, and as no other: of its word in every
/// POSIX shell, of that which is first on a line, and of that on one line where `$'..'` is read or
/// isn't needed. The characters of a line of such words are read as these names. (UTF-8, GBK,
/// GB18030, Big5, Shift-JIS and the EUCs are such charsets. The blanks between words are space, tab
/// and newline.)
pub fn charset_words()
    ensures read { (l : Language) → (name : List ℕ) → AreBytes name
        → IsCharacterText l (quoted_word name) name }
    ensures first { (l : Language) → (name : List ℕ) → AreBytes name
        → IsCharacterText l (first_word name) name }
    ensures shown { (l : Language) → (name : List ℕ) → (text : List ℕ) → AreBytes name
        → IsLineText name → IsLineWord name text → IsCharacterText l text name }
    ensures line { (l : Language) → (name : List ℕ) → (text : List ℕ) → l.dollar_quotes ≡ true
        → AreBytes name → HasNoNul name → IsLineWord name text → IsCharacterText l text name }
    ensures joined { (l : Language) → (names : List (List ℕ)) → AllByRecursion AreBytes names
        → IsCharacterLine l (join_words (line_words names)) names }
    ensures one { (l : Language) → (cs : List (List ℕ)) → (a : List ℕ) → (b : List ℕ)
        → (p : List (List ℕ)) → (q : List (List ℕ)) → ReadsCharacters l true cs a p
        → ReadsCharacters l true cs b q → a ≡ b }
{}

/// Which charsets these are: each of one byte, and each of one or two bytes whose lead bytes are
/// from 80 (hexadecimal) on and whose trail bytes are from 28 on, as GBK, Big5 and Shift-JIS. In a
/// charset of one byte, characters are read as the bytes of a line are.
pub fn charsets()
    ensures single { IsCharset single_bytes }
    ensures double { (leads : ℕ → Bool) → (trails : ℕ → Bool)
        → ((b : ℕ) → leads b ≡ true → 0x80 ≤ b) → ((b : ℕ) → trails b ≡ true → 0x28 ≤ b)
        → IsCharset (double_byte leads trails) }
    ensures bytes { (l : Language) → (text : List ℕ) → (word : List ℕ) → (after : List ℕ)
        → (Reads l true text (Word word after)
        ↔ ReadsCharacters l true (single_bytes text) word (single_bytes after)) }
{}

/// A text is a word of fish of one name, and a string of PowerShell of one list of characters.
pub fn other_shells()
    ensures fish { (text : List ℕ) → (a : List ℕ) → (b : List ℕ) → IsFishText text a
        → IsFishText text b → a ≡ b }
    ensures powershell { (text : List ℕ) → (a : List ℕ) → (b : List ℕ) → IsPowerShellText text a
        → IsPowerShellText text b → a ≡ b }
{}
