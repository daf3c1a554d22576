ghost use Rattle.std.specs.Prelude.{◌≡◌, Some, None, map, MatchOption, option_map};
ghost use Rattle.std.specs.Str.{bytes_eq};
ghost use Rattle.arch_rules.specs.Roles.{carried, either, port_or, in_pb_type, row, role_in, required, counted, sort_of, is_pb_type};

use vtr_base::Text;

/// What an element of an architecture file is, by what it stands in and by its name.
#[derive(Clone, Copy, Debug, PartialEq, Eq)]
pub enum Role {
    /// The file itself, in which the root stands.
    File,
    Architecture,
    Models,
    Model,
    /// `input_ports` or `output_ports` of a model.
    ModelPorts,
    ModelPort,
    Tiles,
    Tile,
    SubTile,
    /// `equivalent_sites`
    Sites,
    Site,
    TilePort,
    Layouts,
    FixedLayout,
    Single,
    /// An element of a fixed layout that isn't `single`.
    Region,
    /// `complexblocklist`
    Blocks,
    /// A pb_type of the complexblocklist.
    Block,
    /// A pb_type in a pb_type or in a mode.
    PbType,
    Port,
    Mode,
    Interconnect,
    /// `direct`, `complete` or `mux`
    Inter,
    /// `pack_pattern`
    Pattern,
    Metadata,
    Meta,
    /// An element that isn't read.
    Carried,
    /// An element that may not stand there.
    Unknown,
    /// An included file, or another root than `architecture`.
    Foreign,
}

/// A sort of siblings, whose names differ.
#[derive(Clone, Copy, Debug, PartialEq, Eq)]
pub enum Sort {
    /// Models, tiles, block types, or the children of a mode.
    Units,
    /// Ports of a pb_type or of a sub_tile.
    Ports,
    /// Modes of a pb_type.
    Modes,
}

impl Role {
    /// The role of a child of this name.
    pub fn of_child(self, name: &Text) -> Role
        ensures { result ≡ role_in self name.now }
    {
        choice(
            name,
            b"xi:include",
            Role::Foreign,
            self.of_plain_child(name),
        )
    }

    /// The same, where the name isn't that of an included file.
    fn of_plain_child(self, name: &Text) -> Role
        ensures { result ≡ row self name.now }
    {
        match self {
            Role::File => choice(name, b"architecture", Role::Architecture, Role::Foreign),
            Role::Architecture => in_architecture(name),
            Role::Models => choice(name, b"model", Role::Model, Role::Carried),
            Role::Model => in_model(name),
            Role::ModelPorts => choice(name, b"port", Role::ModelPort, Role::Carried),
            Role::Tiles => choice(name, b"tile", Role::Tile, Role::Carried),
            Role::Tile => choice(name, b"sub_tile", Role::SubTile, Role::Carried),
            Role::SubTile => in_sub_tile(name),
            Role::Sites => choice(name, b"site", Role::Site, Role::Carried),
            Role::Layouts => choice(name, b"fixed_layout", Role::FixedLayout, Role::Carried),
            Role::FixedLayout => choice(name, b"single", Role::Single, Role::Region),
            Role::Single => choice(name, b"metadata", Role::Metadata, Role::Carried),
            Role::Blocks => choice(name, b"pb_type", Role::Block, Role::Carried),
            Role::Block | Role::PbType => of_pb_type(name),
            Role::Mode => in_mode(name),
            Role::Interconnect => in_interconnect(name),
            Role::Inter => in_inter(name),
            Role::Metadata => choice(name, b"meta", Role::Meta, Role::Carried),
            Role::ModelPort
            | Role::Site
            | Role::TilePort
            | Role::Region
            | Role::Port
            | Role::Pattern
            | Role::Meta
            | Role::Carried
            | Role::Unknown
            | Role::Foreign => Role::Carried,
        }
    }

    /// The attributes that an element has to have, in the order in which they are looked for.
    pub fn required(self) -> &'static [&'static str]
        ensures { map (λ n. n.now) result.now ≡ required self }
    {
        match self {
            Role::Model
            | Role::ModelPort
            | Role::Tile
            | Role::SubTile
            | Role::Block
            | Role::PbType
            | Role::Mode
            | Role::Meta => &["name"],
            Role::Site => &["pb_type"],
            Role::TilePort | Role::Port => &["name", "num_pins"],
            Role::FixedLayout => &["width", "height"],
            Role::Single => &["type", "x", "y", "priority"],
            Role::Inter => &["name", "input", "output"],
            Role::Pattern => &["name", "in_port", "out_port"],
            Role::File
            | Role::Architecture
            | Role::Models
            | Role::ModelPorts
            | Role::Tiles
            | Role::Sites
            | Role::Layouts
            | Role::Region
            | Role::Blocks
            | Role::Interconnect
            | Role::Metadata
            | Role::Carried
            | Role::Unknown
            | Role::Foreign => &[],
        }
    }

    /// The sort of its names, where no two siblings of one sort may have one name.
    pub fn sort(self) -> Option<Sort>
        ensures { result ≡ sort_of self }
    {
        match self {
            Role::Model | Role::Tile | Role::Block | Role::PbType => Some(Sort::Units),
            Role::TilePort | Role::Port => Some(Sort::Ports),
            Role::Mode => Some(Sort::Modes),
            Role::File
            | Role::Architecture
            | Role::Models
            | Role::ModelPorts
            | Role::ModelPort
            | Role::Tiles
            | Role::SubTile
            | Role::Sites
            | Role::Site
            | Role::Layouts
            | Role::FixedLayout
            | Role::Single
            | Role::Region
            | Role::Blocks
            | Role::Interconnect
            | Role::Inter
            | Role::Pattern
            | Role::Metadata
            | Role::Meta
            | Role::Carried
            | Role::Unknown
            | Role::Foreign => None,
        }
    }

    /// Whether it is a block type or a pb_type in one.
    pub fn is_pb_type(self) -> bool
        ensures { result ≡ is_pb_type self }
    {
        matches!(self, Role::Block | Role::PbType)
    }
}

/// The one role for a name that is this word, and the other for any other name.
fn choice(name: &Text, word: &[u8], role: Role, other: Role) -> Role
    ensures { result ≡ either name.now word.now role other }
{
    if name.as_bytes() == word { role } else { other }
}

fn in_architecture(name: &Text) -> Role
    ensures { result ≡ row Role.Architecture name.now }
{
    let others = choice(name, b"complexblocklist", Role::Blocks, Role::Carried);
    let others = choice(name, b"layout", Role::Layouts, others);
    let others = choice(name, b"tiles", Role::Tiles, others);
    choice(name, b"models", Role::Models, others)
}

fn in_model(name: &Text) -> Role
    ensures { result ≡ row Role.Model name.now }
{
    let others = choice(name, b"output_ports", Role::ModelPorts, Role::Carried);
    choice(name, b"input_ports", Role::ModelPorts, others)
}

fn in_sub_tile(name: &Text) -> Role
    ensures { result ≡ row Role.SubTile name.now }
{
    let others = port_or(name, Role::TilePort, Role::Carried);
    choice(name, b"equivalent_sites", Role::Sites, others)
}

fn of_pb_type(name: &Text) -> Role
    ensures { result ≡ in_pb_type name.now }
{
    let others = choice(name, b"metadata", Role::Metadata, carried(name));
    let others = choice(name, b"interconnect", Role::Interconnect, others);
    let others = choice(name, b"pb_type", Role::PbType, others);
    let others = choice(name, b"mode", Role::Mode, others);
    port_or(name, Role::Port, others)
}

fn in_mode(name: &Text) -> Role
    ensures { result ≡ row Role.Mode name.now }
{
    let others = choice(name, b"metadata", Role::Metadata, carried(name));
    let others = choice(name, b"interconnect", Role::Interconnect, others);
    choice(name, b"pb_type", Role::PbType, others)
}

fn in_interconnect(name: &Text) -> Role
    ensures { result ≡ row Role.Interconnect name.now }
{
    let others = choice(name, b"mux", Role::Inter, carried(name));
    let others = choice(name, b"complete", Role::Inter, others);
    choice(name, b"direct", Role::Inter, others)
}

fn in_inter(name: &Text) -> Role
    ensures { result ≡ row Role.Inter name.now }
{
    let others = choice(name, b"metadata", Role::Metadata, carried(name));
    choice(name, b"pack_pattern", Role::Pattern, others)
}

/// `input`, `output` or `clock`, or another name.
fn port_or(name: &Text, port: Role, other: Role) -> Role
    ensures { result ≡ port_or name.now port other }
{
    let others = choice(name, b"clock", port, other);
    let others = choice(name, b"output", port, others);
    choice(name, b"input", port, others)
}

/// What isn't read in a pb_type, a mode, an interconnect or one of its kinds; anything else is
/// unknown there.
fn carried(name: &Text) -> Role
    ensures { result ≡ carried name.now }
{
    let others = choice(name, b"pinlocations", Role::Carried, Role::Unknown);
    let others = choice(name, b"fc", Role::Carried, others);
    let others = choice(name, b"C_matrix", Role::Carried, others);
    let others = choice(name, b"C_constant", Role::Carried, others);
    let others = choice(name, b"delay_matrix", Role::Carried, others);
    let others = choice(name, b"delay_constant", Role::Carried, others);
    let others = choice(name, b"T_clock_to_Q", Role::Carried, others);
    let others = choice(name, b"T_hold", Role::Carried, others);
    let others = choice(name, b"T_setup", Role::Carried, others);
    choice(name, b"power", Role::Carried, others)
}
