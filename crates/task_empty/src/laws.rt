ghost use Rattle.std.specs.Prelude.{◌≡◌, ◌≢◌, []};
ghost use Rattle.pb_expand.specs.Graph.{Graph};
ghost use Rattle.prog_map.specs.Choices.{no_choices};
ghost use Rattle.task_types.specs.declared.task.Task.{Task};
ghost use Rattle.task_types.specs.declared.real.Real.{Real};
ghost use Rattle.task_types.specs.Nets.{NetSaid};
ghost use Rattle.task_types.specs.Realises.{Realises};
ghost use Rattle.task_rules.specs.Valid.{IsValid};
ghost use Rattle.task_empty.specs.Empty.{empty_real};

/// The laws of the empty programming, for callers' proofs: with no homes and no entries it realises
/// each valid task of no atoms, and whatever its homes and entries it realises no task that has an
/// atom. It does nothing.
pub fn empty_law()
    ensures empty { (g : Graph) (n : NetSaid) (t : Task) → IsValid g n t → t.atoms ≡ [] → Realises g
        n t empty_real }
    ensures some { (g : Graph) (n : NetSaid) (t : Task) (r : Real) → t.atoms ≢ [] → r.prog
        ≡ no_choices → Realises g n t r → ⊥ }
{}
