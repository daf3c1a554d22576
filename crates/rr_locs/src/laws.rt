ghost use Rattle.std.specs.Prelude.{◌≡◌, ◌<◌, ◌+◌, ℕ, List, Some, slice_get};
ghost use Rattle.rr_locs.specs.declared.roots.TileRoot.{TileRoot};
ghost use Rattle.rr_locs.specs.declared.roots.LocAt.{LocAt};
ghost use Rattle.vtr_base.specs.Lists.{Has};
ghost use Rattle.rr_locs.specs.Listing.{loc_of};
ghost use Rattle.rr_locs.specs.Places.{AreLocs, IsFirstAt};

/// Tells a caller's proof that roots have one list of locations. It does nothing.
pub fn one_list()
    ensures { (roots : List TileRoot) (xs ys : List LocAt) →
        AreLocs roots xs → AreLocs roots ys → xs ≡ ys }
{}

/// Tells a caller's proof that the locations of a root follow its first one by their subs. It does
/// nothing.
pub fn subs_follow()
    ensures { (roots : List TileRoot) (locs : List LocAt) (root : TileRoot) (number sub : ℕ) →
        AreLocs roots locs → Has roots root → IsFirstAt locs root.x root.y number →
        sub < root.capacity → slice_get locs (number + sub) ≡ Some (loc_of root sub) }
{}
