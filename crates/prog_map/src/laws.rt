ghost use Rattle.std.specs.Prelude.{◌≡◌, ℕ};
ghost use Rattle.prog_map.specs.declared.choice.LutChoice.{LutChoice};
ghost use Rattle.prog_map.specs.Choices.{Choices, with_mode, with_pick, with_used, with_lut};
ghost use Rattle.prog_map.specs.Settings.{SetsMode, SetsPick, SetsUsed, SetsLut};
ghost use Rattle.prog_map.specs.Back.{StepsBack};
ghost use Rattle.prog_map.specs.Walk.{IsLast, Carried, IsSource};

use pb_expand::PbGraph;

/// What the look-ups of a programming give after a site was set. It does nothing.
pub fn setting_laws()
    ensures mode { (c : Choices) (pb mode : ℕ) → SetsMode c (with_mode c pb mode) pb mode }
    ensures pick { (c : Choices) (pin mode edge : ℕ) → SetsPick c (with_pick c pin mode edge) pin
        mode edge }
    ensures uses { (c : Choices) (pb : ℕ) → SetsUsed c (with_used c pb) pb }
    ensures lut { (c : Choices) (pb : ℕ) (choice : LutChoice) → SetsLut c (with_lut c pb choice) pb
        choice }
{}

/// The laws of steps back: a pin has one at most, and so one last pin, from which it is carried;
/// and it is carried from one pin at most from which no step leads back. It does nothing.
pub fn step_laws(graph: &PbGraph)
    ensures one { (c : Choices) (p q r : ℕ) → StepsBack graph.now c p q → StepsBack graph.now c p r
        → q ≡ r }
    ensures last { (c : Choices) (p q r : ℕ) → IsLast (StepsBack graph.now c) p q → IsLast
        (StepsBack graph.now c) p r → q ≡ r }
    ensures carried { (c : Choices) (p q : ℕ) → IsLast (StepsBack graph.now c) p q → Carried
        graph.now c p q }
    ensures source { (c : Choices) (p s t : ℕ) → IsSource graph.now c p s → IsSource graph.now c p t
        → s ≡ t }
{
    graph.law();
    graph.keeps();
}
