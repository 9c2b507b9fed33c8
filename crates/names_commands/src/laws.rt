//! Laws of lists of names. Each is the contract of a function that does nothing.
ghost use Rattle.std.specs.Prelude.{◌≡◌, ◌++◌, ℕ, List};
ghost use Rattle.names_commands.specs.Back.{listing, listing_words, joining, joining_words, with_last, AreFirst, AreTaken, IsCompleted};
ghost use Rattle.program_frame.specs.Strings.{strings};
ghost use Rattle.program_frame.specs.declared.os.Os.TheVariants.{Unix};
ghost use Rattle.list_programs.specs.ListOptions.{byte_of};
ghost use Rattle.list_programs.specs.ListRun.{IsOutput};
ghost use Rattle.list_programs.specs.declared.options.LastItem.{LastItem};
ghost use Rattle.list_programs.specs.declared.options.LastItem.TheVariants.{MustEnd};
ghost use Rattle.list_programs.specs.declared.options.ListOptions.{ListOptions};
ghost use Rattle.names_commands.specs.Task.{rules_of};
ghost use Rattle.names_commands.specs.declared.task.EmptyLine.{EmptyLine};

use os_str_bytes::Platform;

/// `join` gives back the names whose lines `list` wrote, with the end that the last may lack. With
/// the same limit it rejects none of the lines, if it takes empty lines or no name is empty. With
/// another limit it gives back nothing else.
///
/// Where the lines were cut off, it gives back some of the first names, each of them whole. Or it
/// rejects the lines, unless it runs with the setting that the last line may lack its newline.
pub fn names_come_back<E: Platform>()
    ensures some { (empty : EmptyLine) → (last : LastItem) → (list : ListOptions)
        → (names : List ℕ) → (lines : List ℕ) → AreTaken empty (byte_of list.end) names
        → IsOutput (rules_of ⟦<E as Platform>⟧ (listing list)) names lines → (suffix : List ℕ)
        × (IsOutput (rules_of ⟦<E as Platform>⟧ (joining empty (with_last last list))) lines
        suffix × IsCompleted (byte_of list.end) names suffix) }
    ensures same { (empty : EmptyLine) → (list : ListOptions) → (other : ListOptions)
        → (names : List ℕ) → (lines : List ℕ) → (suffix : List ℕ) → other.end ≡ list.end
        → IsOutput (rules_of ⟦<E as Platform>⟧ (listing list)) names lines
        → IsOutput (rules_of ⟦<E as Platform>⟧ (joining empty other)) lines suffix
        → IsCompleted (byte_of list.end) names suffix }
    ensures cut { (empty : EmptyLine) → (list : ListOptions) → (other : ListOptions)
        → (names : List ℕ) → (lines : List ℕ) → (prefix : List ℕ) → (rest : List ℕ)
        → (suffix : List ℕ) → other.end ≡ list.end
        → IsOutput (rules_of ⟦<E as Platform>⟧ (listing list)) names lines
        → lines ≡ prefix ++ rest
        → IsOutput (rules_of ⟦<E as Platform>⟧ (joining empty (with_last MustEnd other))) prefix
        suffix → AreFirst (byte_of list.end) names suffix }
{}

/// `join` gives back names of Unix whose words `list` wrote on one line each, as `names_come_back`
/// states for escapes. A word is never empty.
pub fn names_come_back_from_words()
    ensures some { (last : LastItem) → (list : ListOptions) → (names : List ℕ) → (lines : List ℕ)
        → IsOutput (rules_of (strings Unix) (listing_words list)) names lines → (suffix : List ℕ)
        × (IsOutput (rules_of (strings Unix) (joining_words (with_last last list))) lines suffix
        × IsCompleted (byte_of list.end) names suffix) }
    ensures same { (list : ListOptions) → (other : ListOptions) → (names : List ℕ)
        → (lines : List ℕ) → (suffix : List ℕ) → other.end ≡ list.end
        → IsOutput (rules_of (strings Unix) (listing_words list)) names lines
        → IsOutput (rules_of (strings Unix) (joining_words other)) lines suffix
        → IsCompleted (byte_of list.end) names suffix }
    ensures cut { (list : ListOptions) → (other : ListOptions) → (names : List ℕ)
        → (lines : List ℕ) → (prefix : List ℕ) → (rest : List ℕ) → (suffix : List ℕ)
        → other.end ≡ list.end
        → IsOutput (rules_of (strings Unix) (listing_words list)) names lines
        → lines ≡ prefix ++ rest
        → IsOutput (rules_of (strings Unix) (joining_words (with_last MustEnd other))) prefix
        suffix → AreFirst (byte_of list.end) names suffix }
{}
