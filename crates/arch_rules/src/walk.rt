ghost use Rattle.std.specs.Prelude.{◌≡◌, ◌↔◌, ◌++◌, ◌∷◌, [], List, true, IfOk, IfErr, OnOk, IsTrue};
ghost use Rattle.elem_text.specs.declared.elem.Elem.{Elem};
ghost use Rattle.arch_rules.specs.Elements.{kids_of};
ghost use Rattle.arch_rules.specs.Rules.{role_at, IsTaken, IsSecond, IsOwners};
ghost use Rattle.arch_rules.specs.Taken.{Knows, KnowsLists};
ghost use Rattle.arch_rules.specs.Walks.{inside, cousins, Judges, JudgesOne, IsFineFile, BreaksFirst};
ghost use Rattle.arch_rules.specs.Within.{place_in, is_below};

use crate::attr::own_name;
use crate::check::check_elem;
use crate::error::RuleError;
use crate::role::Role;
use crate::taken::Taken;
use elem_text::Elem;
use std::alloc::{AllocError, Global};

/// Where the children of an element stand: what the element is, and the name of the pb_type that
/// it is or that is next above it.
#[derive(Clone, Copy)]
pub struct Within<'a> {
    pub parent: Role,
    pub owner: &'a str,
}

impl<'a> Within<'a> {
    /// Where the children of an element stand that stands here itself.
    fn inside(self, role: Role, elem: &'a Elem) -> Within<'a>
        requires { role ≡ role_at (place_in self) elem.now }
        ensures { place_in result ≡ inside (place_in self.entry) elem.now }
    {
        if role.is_pb_type() {
            return Within {
                parent: role,
                owner: own_name(elem),
            };
        }
        Within {
            parent: role,
            owner: self.owner,
        }
    }
}

/// Whether the element is a child that has its parent's name.
fn has_owners_name(at: Within<'_>, role: Role, elem: &Elem) -> bool
    requires { role ≡ role_at (place_in at) elem.now }
    ensures { IsTrue result ↔ IsOwners (place_in at.entry) elem.now }
{
    match role {
        Role::PbType => own_name(elem) == at.owner,
        _ => false,
    }
}

/// Whether an element before has this one's name and sort. From now on its own name is met.
fn is_second<'a>(
    at: Within<'_>,
    role: Role,
    taken: &mut Taken<'a>,
    elem: &'a Elem,
) -> Result<bool, AllocError>
    requires { role ≡ role_at (place_in at) elem.now }
    ensures told { IfOk result (λ second. (before : List Elem) → Knows (place_in at.entry) taken.old
        before → IsTrue second ↔ IsSecond (place_in at.entry) before elem.now) }
    ensures knows { IfOk result (λ second. (before : List Elem) → Knows (place_in at.entry)
        taken.old before → Knows (place_in at.entry) taken.new (before ++ elem.now ∷ [])) }
{
    match role.sort() {
        Some(sort) => {
            let fresh = taken.add(sort, own_name(elem))?;
            Ok(!fresh)
        }
        None => Ok(false),
    }
}

/// Whether the element's name is taken. From now on its own name is met.
fn is_taken<'a>(
    at: Within<'_>,
    role: Role,
    taken: &mut Taken<'a>,
    elem: &'a Elem,
) -> Result<bool, AllocError>
    requires { role ≡ role_at (place_in at) elem.now }
    ensures told { IfOk result (λ second. (before : List Elem) → Knows (place_in at.entry) taken.old
        before → IsTrue second ↔ IsTaken (place_in at.entry) before elem.now) }
    ensures knows { IfOk result (λ second. (before : List Elem) → Knows (place_in at.entry)
        taken.old before → Knows (place_in at.entry) taken.new (before ++ elem.now ∷ [])) }
{
    if is_second(at, role, taken, elem)? {
        return Ok(true);
    }
    Ok(has_owners_name(at, role, elem))
}

/// The rules on one element where it stands. From now on its own name is met.
fn check_one<'a>(
    alloc: Global,
    at: Within<'_>,
    role: Role,
    taken: &mut Taken<'a>,
    elem: &'a Elem,
) -> Result<(), RuleError>
    requires { role ≡ role_at (place_in at) elem.now }
    ensures told { (before : List Elem) → Knows (place_in at.entry) taken.old before → JudgesOne
        result (place_in at.entry) before elem.now }
    ensures knows { OnOk result ((before : List Elem) → Knows (place_in at.entry) taken.old before
        → Knows (place_in at.entry) taken.new (before ++ elem.now ∷ [])) }
{
    let is_taken = is_taken(at, role, taken, elem)?;
    check_elem(alloc, role, elem, is_taken)
}

/// The rules on the children of an element and on all that is in them, in the order of the file.
fn check_inside<'a>(
    alloc: Global,
    at: Within<'a>,
    taken: &mut Taken<'a>,
    elem: &'a Elem,
) -> Result<(), RuleError>
    requires { is_below (place_in at).parent ≡ true }
    ensures told { (before : List Elem) → Knows (place_in at.entry) taken.old before → Judges result
        (place_in at.entry) before (kids_of elem.now) }
    ensures knows { OnOk result ((before : List Elem) → Knows (place_in at.entry) taken.old before
        → Knows (place_in at.entry) taken.new (before ++ kids_of elem.now)) }
{
    for kid in elem.kids.as_slice() {
        let role = at.parent.of_child(&kid.name);
        check_one(alloc, at, role, taken, kid)?;
        let mut names = Taken::new(alloc);
        check_inside(alloc, at.inside(role, kid), &mut names, kid)?;
    }
    Ok(())
}

/// The names that were met in the lists of models, of tiles and of block types.
#[derive(Drop)]
pub struct Lists<'a> {
    pub models: Taken<'a>,
    pub tiles: Taken<'a>,
    pub blocks: Taken<'a>,
}

/// The rules on what is in a child of the root. From now on its names are met.
fn check_list<'a>(
    alloc: Global,
    at: Within<'a>,
    role: Role,
    lists: &mut Lists<'a>,
    list: &'a Elem,
) -> Result<(), RuleError>
    requires root { at.parent ≡ Role.Architecture }
    requires role { role ≡ role_at (place_in at) list.now }
    ensures told { (before : List Elem) → KnowsLists (place_in at.entry) lists.old before → Judges
        result (inside (place_in at.entry) list.now)
        (cousins (role_at (place_in at.entry) list.now) before) (kids_of list.now) }
    ensures knows { OnOk result ((before : List Elem) → KnowsLists (place_in at.entry) lists.old
        before → KnowsLists (place_in at.entry) lists.new (before ++ list.now ∷ [])) }
{
    let inner = at.inside(role, list);
    match role {
        Role::Models => check_inside(alloc, inner, &mut lists.models, list),
        Role::Tiles => check_inside(alloc, inner, &mut lists.tiles, list),
        Role::Blocks => check_inside(alloc, inner, &mut lists.blocks, list),
        _ => {
            let mut names = Taken::new(alloc);
            check_inside(alloc, inner, &mut names, list)
        }
    }
}

/// The rules on the children of the root and on all that is in them, in the order of the file.
fn check_lists<'a>(alloc: Global, at: Within<'a>, root: &'a Elem) -> Result<(), RuleError>
    requires { at.parent ≡ Role.Architecture }
    ensures { Judges result (place_in at.entry) [] (kids_of root.now) }
{
    let mut names = Taken::new(alloc);
    let mut lists = Lists {
        models: Taken::new(alloc),
        tiles: Taken::new(alloc),
        blocks: Taken::new(alloc),
    };
    for list in root.kids.as_slice() {
        let role = at.parent.of_child(&list.name);
        check_one(alloc, at, role, &mut names, list)?;
        check_list(alloc, at, role, &mut lists, list)?;
    }
    Ok(())
}

/// Tells the first rule that an architecture file with this root breaks, in the order in which its
/// elements begin in the file.
pub fn check_file(alloc: Global, root: &Elem) -> Result<(), RuleError>
    ensures fine { OnOk result (IsFineFile root.now) }
    ensures broken { IfErr result (λ e. BreaksFirst root.now e) }
{
    let at = Within {
        parent: Role::File,
        owner: "",
    };
    let role = at.parent.of_child(&root.name);
    let mut names = Taken::new(alloc);
    check_one(alloc, at, role, &mut names, root)?;
    match role {
        Role::Architecture => check_lists(alloc, at.inside(role, root), root),
        _ => Ok(()),
    }
}
