ghost use Rattle.std.specs.Prelude.{◌≡◌, ◌≤◌, ◌<◌, ◌+◌, ◌*◌, ◌^◌, ℕ, List, [], ◌∷◌, None};
ghost use Rattle.pb_expand.specs.Graph.{Graph};
ghost use Rattle.task_types.specs.declared.task.Task.{Task};
ghost use Rattle.task_types.specs.declared.tree.Var.{Var};
ghost use Rattle.task_room.specs.Room.{IsCapped, choices_of};

/// How many variables there were, and the product of the numbers of their options, where that is
/// below 2^64.
#[derive(Clone, Copy, Debug, PartialEq, Eq)]
pub(crate) struct Tally {
    pub count: u64,
    pub product: Option<u64>,
}

impl Tally {
    ghost use Rattle.task_room.specs.Listed.{IsTallyOf};

    /// No variable.
    pub fn empty() -> Tally
        ensures count { result.count ≡ 0 }
        ensures tally { (g : Graph) (t : Task) → IsTallyOf g t result [] }
    {
        Tally {
            count: 0,
            product: Some(1),
        }
    }

    /// One variable more, with so many options.
    pub fn and(self, options: u64) -> Tally
        requires { self.count + 1 < 2 ^ 64 }
        ensures count { result.count ≡ self.count + 1 }
        ensures tally { (g : Graph) (t : Task) (v : Var) (vars : List Var) → IsTallyOf g t self vars
            → choices_of g t v ≡ options → IsTallyOf g t result (v ∷ vars) }
    {
        Tally {
            count: self.count + 1,
            product: times(self.product, options),
        }
    }

    /// One variable more, which has an option, where the product is too large already.
    pub fn and_some(self) -> Tally
        requires count { self.count + 1 < 2 ^ 64 }
        requires large { self.product ≡ None }
        ensures count { result.count ≡ self.count + 1 }
        ensures tally { (g : Graph) (t : Task) (v : Var) (vars : List Var) → IsTallyOf g t self vars
            → 1 ≤ choices_of g t v → IsTallyOf g t result (v ∷ vars) }
    {
        Tally {
            count: self.count + 1,
            product: None,
        }
    }
}

/// A product that may be too large, times a number.
pub(crate) fn times(product: Option<u64>, number: u64) -> Option<u64>
    ensures { (exact : ℕ) → IsCapped product exact → IsCapped result (number * exact) }
{
    if number == 0 {
        return Some(0);
    }
    match product {
        None => None,
        Some(product) => product.checked_mul(number),
    }
}
