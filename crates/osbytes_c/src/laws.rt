//! The laws of statuses, whole walks and whole lines. Each is the contract of a function that does nothing.
ghost use Rattle.std.specs.Prelude.{ℕ, List, length, ◌++◌};
ghost use Rattle.wtf8_core.specs.Chunks.{Chunk, AreChunks};
ghost use Rattle.os_str_ext.specs.Pieces.{IsSplit, IsRSplit};
ghost use Rattle.os_str_ext.specs.Symbols.{AreSymbols};
ghost use Rattle.os_str_ext.specs.declared.symbols.Symbol.{Symbol};
ghost use Rattle.os_command_line.specs.Windows.{IsCommandLine, quote};
ghost use Rattle.os_command_line.specs.WindowsWriting.{HasNo};
ghost use Rattle.osbytes_c.specs.CommandLines.{AreArgumentTexts, after_name, quoted_name};
ghost use Rattle.osbytes_c.specs.Platforms.{units_on};
ghost use Rattle.osbytes_c.specs.Statuses.{IsAscending, statuses};
ghost use Rattle.osbytes_c.specs.Walks.{SplitWalk, RSplitWalk, ChunkWalk, SymbolWalk};

/// The numbers of the statuses are in ascending order, so no two statuses are equal.
pub fn statuses_differ()
    ensures { IsAscending statuses }
{}

/// The pieces of a split that is stepped from 0 to its last piece are the split, and those of one
/// that is stepped from the end are the split from the end.
pub fn split_walks()
    ensures split { (p : List ℕ) → (s : List ℕ) → (pieces : List (List ℕ)) → SplitWalk p s 0 pieces
        → IsSplit p s pieces }
    ensures rsplit { (p : List ℕ) → (s : List ℕ) → (pieces : List (List ℕ))
        → RSplitWalk p s (length s) pieces → IsRSplit p s pieces }
{}

/// The chunks that are stepped from 0 to the end are the chunks of the string.
pub fn chunk_walks()
    ensures { (s : List ℕ) → (chunks : List Chunk) → ChunkWalk s 0 chunks → AreChunks s chunks }
{}

/// The symbols that are stepped from 0 to the end are the symbols of the string.
pub fn symbol_walks()
    ensures { (platform : ℕ) → (s : List ℕ) → (symbols : List Symbol)
        → SymbolWalk platform s 0 symbols → AreSymbols (units_on platform) s symbols }
{}

/// A program's name in quotation marks, and a space and the text of each argument after it, are the
/// command line of this program with these arguments.
pub fn command_lines()
    ensures { (name : List ℕ) → (arguments : List (List ℕ)) → (texts : List (List ℕ))
        → HasNo quote name → AreArgumentTexts arguments texts
        → IsCommandLine (quoted_name name ++ after_name texts) name arguments }
{}
