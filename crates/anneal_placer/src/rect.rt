ghost use Rattle.std.specs.Prelude.{◌≡◌, ◌+◌, ◌-◌, ◌<◌, ◌^◌, ◌++◌, ◌∷◌, [], List, ℕ, MatchOption, length, min, max};
ghost use Rattle.std.specs.List.{All};
ghost use Rattle.anneal_placer.specs.Rects.{IsRectOf, AreBounds, away, half_perimeter, without};

use crate::SiteAt;

/// Columns or rows from the lowest to the highest.
#[derive(Clone, Copy, Drop)]
pub(crate) struct Range {
    pub(crate) low: u32,
    pub(crate) high: u32,
}

impl Range {
    fn at(place: u32) -> Range
        ensures low { result.low ≡ place }
        ensures high { result.high ≡ place }
    {
        Range {
            low: place,
            high: place,
        }
    }

    fn with(self, place: u32) -> Range
        ensures low { result.low ≡ min self.low place }
        ensures high { result.high ≡ max self.high place }
    {
        Range {
            low: self.low.min(place),
            high: self.high.max(place),
        }
    }

    fn width(self) -> u64
        ensures { result ≡ self.high - self.low }
    {
        self.high.saturating_sub(self.low) as u64
    }

    /// How far the place lies outside.
    pub(crate) fn away(self, place: u32) -> u64
        ensures value { result ≡ (self.low - place) + (place - self.high) }
        ensures small { result < 2 ^ 33 }
    {
        self.low.saturating_sub(place) as u64 + place.saturating_sub(self.high) as u64
    }
}

/// The least rectangle in which some sites lie.
#[derive(Clone, Copy, Drop)]
pub(crate) struct Rect {
    pub(crate) columns: Range,
    pub(crate) rows: Range,
}

impl Rect {
    fn at(site: SiteAt) -> Rect
        ensures columns_low { result.columns.low ≡ site.x }
        ensures columns_high { result.columns.high ≡ site.x }
        ensures rows_low { result.rows.low ≡ site.y }
        ensures rows_high { result.rows.high ≡ site.y }
    {
        Rect {
            columns: Range::at(site.x),
            rows: Range::at(site.y),
        }
    }

    fn with(self, site: SiteAt) -> Rect
        ensures columns_low { result.columns.low ≡ min self.columns.low site.x }
        ensures columns_high { result.columns.high ≡ max self.columns.high site.x }
        ensures rows_low { result.rows.low ≡ min self.rows.low site.y }
        ensures rows_high { result.rows.high ≡ max self.rows.high site.y }
    {
        Rect {
            columns: self.columns.with(site.x),
            rows: self.rows.with(site.y),
        }
    }

    pub(crate) fn half_perimeter(self) -> u64
        ensures value { result ≡ half_perimeter self }
        ensures small { result < 2 ^ 33 }
    {
        self.columns.width() + self.rows.width()
    }

    /// How far the site lies outside, in columns and rows.
    pub(crate) fn away(self, site: SiteAt) -> u64
        ensures value { result ≡ away site self }
        ensures small { result < 2 ^ 34 }
    {
        self.columns.away(site.x) + self.rows.away(site.y)
    }
}

/// The rectangle with one more site.
fn joined(rect: Option<Rect>, site: SiteAt) -> Option<Rect>
    ensures { (xs ys : List ℕ) → AreBounds xs ys rect → AreBounds (xs ++ site.x ∷ [])
        (ys ++ site.y ∷ []) result }
{
    match rect {
        None => Some(Rect::at(site)),
        Some(rect) => Some(rect.with(site)),
    }
}

/// The rectangle of a net's blocks, if it has any.
pub(crate) fn rect_of(sites: &[SiteAt], places: &[u32], net: &[u32]) -> Option<Rect>
    requires sites { All (λ site. site < length sites.now) places.now }
    requires blocks { All (λ block. block < length places.now) net.now }
    ensures { MatchOption result (net.now ≡ []) (IsRectOf sites.now places.now net.now) }
{
    let mut rect = None;
    for block in net {
        let site = places[*block as usize];
        rect = joined(rect, sites[site as usize]);
    }
    rect
}

/// The rectangle of a net's blocks but for one, if it has any others.
pub(crate) fn rect_without(
    sites: &[SiteAt],
    places: &[u32],
    net: &[u32],
    block: u32,
) -> Option<Rect>
    requires sites { All (λ site. site < length sites.now) places.now }
    requires blocks { All (λ block. block < length places.now) net.now }
    ensures { MatchOption result (without block net.now ≡ [])
        (IsRectOf sites.now places.now (without block net.now)) }
{
    let mut rect = None;
    for other in net {
        if *other != block {
            let site = places[*other as usize];
            rect = joined(rect, sites[site as usize]);
        }
    }
    rect
}
