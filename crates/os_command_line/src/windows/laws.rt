//! Laws of command lines. Each is the contract of a function that does nothing.
ghost use Rattle.std.specs.Prelude.{◌≡◌, ◌∷◌, [], ℕ, List};
ghost use Rattle.os_command_line.specs.Windows.{AreArguments, IsCommandLine, IsTextOf};
ghost use Rattle.os_command_line.specs.WindowsParts.{AreLineParts};

/// Each line is one program's name and one list of arguments, and each text one list of arguments.
pub fn lines()
    ensures some { (line : List ℕ) → (name : List ℕ) × ((arguments : List (List ℕ))
        × IsCommandLine line name arguments) }
    ensures one_line { (line : List ℕ) → (read : List ℕ × List (List ℕ)) → (name : List ℕ)
        → (arguments : List (List ℕ)) → IsCommandLine line read.0 read.1
        → IsCommandLine line name arguments → read ≡ (name, arguments) }
    ensures arguments { (text : List ℕ) → (arguments : List (List ℕ))
        × AreArguments text arguments }
    ensures one { (text : List ℕ) → (xs : List (List ℕ)) → (ys : List (List ℕ))
        → AreArguments text xs → AreArguments text ys → xs ≡ ys }
{}

/// Each unit of a line is a blank between arguments, a mark, or one of the name or of an argument.
#[tactic(auto, using(crate::proofs::lemmas::WindowsParts::line_parts))]
pub fn parts()
    ensures { (line : List ℕ) → (name : List ℕ) → (arguments : List (List ℕ))
        → IsCommandLine line name arguments → AreLineParts line name arguments }
{}

/// A text that is read as an argument, whatever ends it, is read as no other, and alone it is this
/// argument.
pub fn texts()
    ensures one { (text : List ℕ) → (a : List ℕ) → (b : List ℕ) → IsTextOf text a
        → IsTextOf text b → a ≡ b }
    ensures alone { (text : List ℕ) → (argument : List ℕ) → IsTextOf text argument
        → AreArguments text (argument ∷ []) }
{}
