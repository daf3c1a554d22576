ghost use Rattle.std.specs.Prelude.{◌≡◌, ℕ, List};
ghost use Rattle.arch_types.specs.declared.arch.ArchParts.{ArchParts};
ghost use Rattle.arch_types.specs.declared.arch.Tile.{Tile};
ghost use Rattle.arch_types.specs.WellFormed.{IsWellFormed};
ghost use Rattle.rr_tables.specs.Tiles.{FitTiles};
ghost use Rattle.rr_files.specs.declared.error.RrError.{RrError};
ghost use Rattle.rr_files.specs.Parts.{GraphParts};
ghost use Rattle.rr_files.specs.Saying.{SpellsGraph};
ghost use Rattle.rr_files.specs.Refusing.{IsRefused};

use elem_text::laws_of_the_grammar;
use rr_edges::one_reading_of_edges;
use rr_grid::one_reading as one_reading_of_grid;
use rr_locs::one_list as one_list_of_locs;
use rr_nodes::one_reading as one_reading_of_nodes;
use rr_places::{one_list as one_list_of_places, one_refusal as one_refusal_of_places};
use rr_tables::types_fit;
use rr_wires::one_graph;

/// Tells a caller's proof that a file says one routing graph, is refused in one way, and never
/// both. It does nothing.
pub fn one_reading()
    ensures graph { (tiles : List Tile) (bytes : List ℕ) (g h : GraphParts) →
        SpellsGraph tiles bytes g → SpellsGraph tiles bytes h → g ≡ h }
    ensures refusal { (tiles : List Tile) (bytes : List ℕ) (d e : RrError) →
        IsRefused tiles bytes d → IsRefused tiles bytes e → d ≡ e }
    ensures never_both { (tiles : List Tile) (bytes : List ℕ) (g : GraphParts) (e : RrError) →
        SpellsGraph tiles bytes g → IsRefused tiles bytes e → ⊥ }
{
    laws_of_the_grammar();
    one_list_of_places();
    one_refusal_of_places();
    one_reading_of_grid();
    one_list_of_locs();
    one_reading_of_nodes();
    one_reading_of_edges();
    one_graph();
}

/// Tells a caller's proof that the block types of a routing graph are of the tiles of its
/// architecture: their pins are pins of these tiles, on the same sides. It does nothing.
pub fn fit_tiles()
    ensures { (a : ArchParts) (bytes : List ℕ) (g : GraphParts) →
        IsWellFormed a → SpellsGraph a.tiles bytes g → FitTiles a.tiles g.layout.types }
{
    types_fit();
}
