//! What arrays hold that are filled one after the other. Each is the contract of a function that
//! does nothing.
ghost use Rattle.std.specs.Prelude.{◌++◌, ℕ, Bool, List, drop, map, take};
ghost use Rattle.wtf8_core.specs.Chunks.{Chunk, AreChunks};
ghost use Rattle.os_str_ext.specs.Pieces.{IsSplit, IsRSplit};
ghost use Rattle.os_str_ext.specs.Symbols.{AreSymbols};
ghost use Rattle.os_str_ext.specs.declared.symbols.Symbol.{Symbol};
ghost use Rattle.osbytes_c.specs.ChunkFills.{ChunkViews, viewed_chunk};
ghost use Rattle.osbytes_c.specs.Faults.{IsString};
ghost use Rattle.osbytes_c.specs.Fills.{IsLeft, LastPieceViews, PieceViews, viewed};
ghost use Rattle.osbytes_c.specs.Platforms.{units_on};
ghost use Rattle.osbytes_c.specs.SymbolFills.{AreReported, SymbolViews};
ghost use Rattle.osbytes_c.specs.declared.walks.chunks_fill.ChunkView.{ChunkView};
ghost use Rattle.osbytes_c.specs.declared.walks.symbols_fill.SymbolView.{SymbolView};
ghost use Rattle.osbytes_c.specs.declared.walks.view.View.{View};

/// The pieces that an array is filled with, and those of what is left, are the pieces of all.
pub fn filled_splits()
    ensures split { (p : List ℕ) → (s : List ℕ) → (address : ℕ) → (at : ℕ) → (items : List View)
        → (ended : Bool) → (rest : ℕ) → (left : List (List ℕ))
        → PieceViews p s address at items ended rest
        → IsLeft ended left (IsSplit p (drop rest s) left)
        → IsSplit p (drop at s) (map (viewed address s) items ++ left) }
    ensures rsplit { (p : List ℕ) → (s : List ℕ) → (address : ℕ) → (at : ℕ) → (items : List View)
        → (ended : Bool) → (rest : ℕ) → (left : List (List ℕ))
        → LastPieceViews p s address at items ended rest
        → IsLeft ended left (IsRSplit p (take rest s) left)
        → IsRSplit p (take at s) (map (viewed address s) items ++ left) }
{}

/// The chunks that an array is filled with, and those of what is left, are the chunks of all.
pub fn filled_chunks()
    ensures { (s : List ℕ) → (address : ℕ) → (at : ℕ) → (items : List ChunkView) → (ended : Bool)
        → (rest : ℕ) → (left : List Chunk) → ChunkViews s address at items ended rest
        → IsLeft ended left (AreChunks (drop rest s) left)
        → AreChunks (drop at s) (map (viewed_chunk address s) items ++ left) }
{}

/// The symbols that an array is filled with, and those of what is left, are the symbols of all, if
/// that is a string.
pub fn filled_symbols()
    ensures { (platform : ℕ) → (s : List ℕ) → (address : ℕ) → (at : ℕ) → (items : List SymbolView)
        → (ended : Bool) → (rest : ℕ) → SymbolViews platform s address at items ended rest
        → IsString platform (drop at s) → (left : List Symbol)
        → IsLeft ended left (AreSymbols (units_on platform) (drop rest s) left)
        → (first : List Symbol) × (AreReported first items
        × AreSymbols (units_on platform) (drop at s) (first ++ left)) }
{}
