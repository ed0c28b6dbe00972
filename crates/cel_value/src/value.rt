//! The values of CEL. What is large is shared, so copying a value allocates
//! nothing. Texts of up to 14 bytes are held in the value itself. Lists, maps and
//! optionals store whether they hold a double and how many levels they have, so
//! neither has to be computed.
ghost use Rattle.std.specs.Prelude.{◌≡◌, ◌≤◌, suc, IfOk};
ghost use Rattle.cel_value.specs.Levels.{levels, max_levels};
ghost use Rattle.cel_value.specs.Same.{has_double};
ghost use Rattle.cel_value.specs.View.{view};

mod blocks;
mod lists;
mod maps;
mod optionals;
mod rows;
mod shared;
mod single;
mod stored;

use crate::key::Key;
use crate::string::Text;
use cel_value_times::{Duration, Timestamp};
use kube_types::{KubeCIDR, KubeFormat, KubeIP, KubeQuantity, KubeSemver, KubeUrl};
use std::alloc::AllocError;
use std::collections::BTreeMap;
use std::fmt;
use std::marker::Model;
use std::rc::Rc;
pub use stored::EntriesIter;

/// The largest number of levels of a value: lists, maps and optionals nested in one another.
///
/// Values are dropped, compared and printed level by level, and each level uses stack space.
/// An expression can wrap a value in another list any number of times, so a value of more
/// levels is refused as if there were no memory.
pub const MAX_VALUE_LEVELS: u16 = 4096;

/// The entries of a map, in key order.
#[derive(Debug, Drop)]
#[cycle(values)]
pub struct Entries {
    // The entry of the least key.
    first: Option<(Key, Value)>,
    // Those that follow, up to some number. There are none if there is no first one.
    rest: Vec<(Key, Value)>,
    // The others, if there are any.
    tail: Option<Tree>,
}

/// The entries of a large map that follow those of its vector.
type Tree = Box<BTreeMap<Key, Value>>;

/// Keys that maps share: at most 8, in key order.
#[derive(Debug, Drop)]
pub struct MapKeys {
    keys: Rc<Vec<Key>>,
}

/// Up to three values. Those of the array that follow the first ones are `null`.
#[derive(Drop)]
#[cycle(values)]
struct Slots {
    count: usize,
    values: [Value; 3],
}

/// The values at the first of some keys, in order. Up to three need no block of their own.
#[derive(Debug, Drop)]
#[cycle(values)]
enum Values {
    // Where there are at most three keys.
    Few(Slots),
    Many(Vec<Value>),
}

/// The entries of a map whose keys are shared with other maps. There are values for the first of
/// the keys, and entries as many as values.
#[derive(Debug, Drop)]
#[cycle(values)]
pub struct SharedEntries {
    keys: Rc<Vec<Key>>,
    values: Values,
}

/// The items of a list.
#[derive(Debug)]
#[cycle(values)]
pub struct List {
    items: Vec<Value>,
    doubles: bool,
    levels: u16,
}

// By hand, so that the drop of values is proved once, here, and not again in each crate above.
impl Drop for List {
    #[cycle(values)]
    fn drop(self) {
        let List {
            items: _,
            doubles: _,
            levels: _,
        } = self;
    }
}

/// Whether a map has a double, at any depth, and how many levels it has.
#[derive(Clone, Copy, Debug)]
struct Nesting {
    doubles: bool,
    levels: u16,
}

/// The entries of a map, with keys of their own or with keys that other maps share.
#[derive(Debug, Drop)]
#[cycle(values)]
enum MapEntries {
    Own(Entries),
    Shared(SharedEntries),
}

/// A map that has its memory for itself.
#[derive(Debug, Drop)]
#[cycle(values)]
struct SingleMap {
    entries: MapEntries,
    nesting: Nesting,
}

/// Maps of the same keys, whose values lie side by side, as those of the rows of a table. A value
/// is neither a double, a list, a map nor an optional. The last row may lack some values.
#[derive(Debug, Drop)]
#[cycle(values)]
pub struct MapRows {
    keys: Rc<Vec<Key>>,
    values: Vec<Value>,
}

/// What maps share: a single map, or those of a list's items.
#[derive(Debug, Drop)]
#[cycle(values)]
enum MapBlock {
    Single(SingleMap),
    Rows(MapRows),
}

/// The entries of a map, in key order. Copies share them.
#[derive(Debug, Drop)]
#[cycle(values)]
pub struct Map {
    block: Rc<MapBlock>,
    // Which of the rows the map is, if there are rows.
    row: usize,
}

/// The value that an optional holds, with its number of levels and whether it holds a double.
#[derive(Debug, Drop)]
#[cycle(values)]
struct Held {
    value: Value,
    doubles: bool,
    levels: u16,
}

/// An optional: a value that may be missing.
#[derive(Debug, Drop)]
#[cycle(values)]
pub struct OptionalValue {
    held: Option<Rc<Held>>,
}

/// A value of CEL.
#[derive(Debug, Drop)]
#[cycle(values)]
pub enum Value {
    /// `null`.
    Null,
    /// `true` or `false`.
    Bool(bool),
    /// A signed integer of 64 bits.
    Int(i64),
    /// An unsigned integer of 64 bits.
    UInt(u64),
    /// A double. Its number is not kept.
    Float,
    /// A string.
    String(Text),
    /// A sequence of bytes.
    Bytes(Rc<Vec<u8>>),
    /// A list.
    List(Rc<List>),
    /// A map, in key order.
    Map(Map),
    /// An instant with the UTC offset of a local clock.
    Timestamp(Timestamp),
    /// A length of time.
    Duration(Duration),
    /// An optional.
    Optional(OptionalValue),
    /// An IP address.
    Ip(Rc<KubeIP>),
    /// A network: an IP address and the length of its prefix.
    Cidr(Rc<KubeCIDR>),
    /// An exact decimal number.
    Quantity(Rc<KubeQuantity>),
    /// A version.
    Semver(Rc<KubeSemver>),
    /// A URL, or an absolute path.
    Url(Rc<KubeUrl>),
    /// A named format of strings.
    Format(KubeFormat),
}

// A value is moved as its kind and two words.
const _: () = prove!(size_of::<Value>() == 24);

const _: () = prove!(size_of::<SingleMap>() <= 112);

impl fmt::Debug for Slots {
    #[cycle(values)]
    fn fmt<W: fmt::Write>(&self, f: &mut fmt::Formatter<W>) -> Result<(), fmt::Error> {
        f.debug_tuple("Slots")
            .field(&self.values[0])
            .field(&self.values[1])
            .field(&self.values[2])
            .finish()
    }
}

impl Model for Entries {
    ghost use Rattle.std.specs.Coded.{codes, code_by};
    ghost use Rattle.cel_value.specs.Coded.{items_code, entries_code};
    ghost use Rattle.std.specs.Prelude.{List, ◌++◌};
    ghost use Rattle.cel_value.specs.Listed.{Entry, Listed, listed_to, listed_from, listed_back};

    ghost Value = { Listed };

    ghost coded = { code_by (List Entry) (Prim.hlevel (codes, items_code, entries_code)) listed_to listed_from listed_back };

    ghost use Rattle.cel_value.specs.StoredEntries.{AreFew, AreStored, all_entries, tree_entries};
    ghost use Rattle.cel_value.specs.Weights.{listed_weight};

    ghost view = { λ a. record { entries = all_entries a.first (a.rest.items ++ tree_entries a.tail) } };

    ghost invariant = { λ a. AreStored a.first (a.rest.items ++ tree_entries a.tail) × AreFew a.rest.items };

    ghost size = { λ l. listed_weight l };

    ghost use Rattle.cel_value.specs.Falls.{listed_falls};

    ghost size_decreases = { λ a h. listed_falls a h.0 };
}

impl Model for SharedEntries {
    ghost use Rattle.std.specs.Coded.{codes, code_by};
    ghost use Rattle.cel_value.specs.Coded.{items_code, entries_code};
    ghost use Rattle.cel_value.specs.Shared.{Shared, Columns, shared_to, shared_from, shared_back};

    ghost Value = { Shared };

    ghost coded = { code_by Columns (Prim.hlevel (codes, items_code, entries_code))
        shared_to shared_from shared_back };

    ghost use Rattle.std.specs.Prelude.{◌≤◌, length};
    ghost use Rattle.std.specs.List.Sorted.{IsStrictlySortedBy};
    ghost use Rattle.cel_value.specs.Keys.{key_cmp};
    ghost use Rattle.cel_value.specs.SharedEntries.{AreInPlace, Suits, values_of};
    ghost use Rattle.cel_value.specs.Weights.{shared_weight};

    ghost view = { λ a. record { keys = a.keys.value.items; values = values_of a.values } };

    ghost invariant = { λ a. IsStrictlySortedBy key_cmp a.keys.value.items
        × (length (values_of a.values) ≤ length a.keys.value.items) × Suits a.keys.value.items a.values
        × AreInPlace a.values };

    ghost size = { λ s. shared_weight s };

    ghost use Rattle.cel_value.specs.Falls.{shared_falls};

    ghost size_decreases = { λ a h. shared_falls a h.1 h.3 };
}

impl Model for MapKeys {
    ghost use Rattle.std.specs.Prelude.{List, ◌≤◌, length};
    ghost use Rattle.std.specs.List.Sorted.{IsStrictlySortedBy};
    ghost use Rattle.cel_value.specs.Keys.{key_cmp};
    ghost use Rattle.cel_value.specs.declared.key.Key.{Key};

    ghost Value = { List Key };

    ghost view = { λ k. k.keys.value.items };

    ghost invariant = { λ k. IsStrictlySortedBy key_cmp k.keys.value.items
        × (length k.keys.value.items ≤ 8) };
}

impl Model for List {
    ghost use Rattle.std.specs.Coded.{codes, code_by};
    ghost use Rattle.cel_value.specs.Data as seen;
    ghost use Rattle.cel_value.specs.Coded.{Marks, items_to, items_from, items_back};

    ghost Value = { seen.Items };

    ghost coded = { code_by Marks (Prim.hlevel codes) items_to items_from items_back };

    ghost use Rattle.std.specs.Prelude.{◌≡◌, ◌≤◌, suc};
    ghost use Rattle.cel_value.specs.Levels.{items_levels, max_levels};
    ghost use Rattle.cel_value.specs.Same.{items_have_double};
    ghost use Rattle.cel_value.specs.View.{items_view};
    ghost use Rattle.cel_value.specs.Weights.{items_weight};

    ghost view = { λ a. items_view a.items.items };

    ghost invariant = { λ a. (a.doubles ≡ items_have_double (items_view a.items.items))
        × (a.levels ≡ suc (items_levels (items_view a.items.items))) × (a.levels ≤ max_levels) };

    ghost size = { items_weight };

    ghost use Rattle.cel_value.specs.Falls.{items_fall};

    ghost size_decreases = { λ a h. items_fall a };
}

impl Model for SingleMap {
    ghost use Rattle.std.specs.Coded.{codes, code_by};
    ghost use Rattle.cel_value.specs.Data as seen;
    ghost use Rattle.cel_value.specs.Coded.{Marks, entries_to, entries_from, entries_back};

    ghost Value = { seen.Entries };

    ghost coded = { code_by Marks (Prim.hlevel codes) entries_to entries_from entries_back };

    ghost use Rattle.cel_value.specs.View.{entries_view};
    ghost use Rattle.cel_value.specs.Weights.{single_weight};
    ghost use Rattle.cel_value.specs.SharedEntries.{IsNestingOf, map_entries};

    ghost view = { λ a. entries_view (map_entries a.entries) };

    ghost invariant = { λ a. IsNestingOf a.nesting (map_entries a.entries) };

    ghost size = { single_weight };

    ghost use Rattle.cel_value.specs.Falls.{entries_fall};

    ghost size_decreases = { λ a h. entries_fall a };
}

impl Model for MapRows {
    ghost use Rattle.std.specs.Coded.{codes, code_by};
    ghost use Rattle.cel_value.specs.Coded.{items_code, entries_code};
    ghost use Rattle.cel_value.specs.Shared.{Shared, Columns, shared_to, shared_from, shared_back};

    ghost Value = { Shared };

    ghost coded = { code_by Columns (Prim.hlevel (codes, items_code, entries_code))
        shared_to shared_from shared_back };

    ghost use Rattle.std.specs.List.Sorted.{IsStrictlySortedBy};
    ghost use Rattle.cel_value.specs.Keys.{key_cmp};
    ghost use Rattle.cel_value.specs.Rows.{AreFlat};
    ghost use Rattle.cel_value.specs.Weights.{rows_weight};

    ghost view = { λ a. record { keys = a.keys.value.items; values = a.values.items } };

    ghost invariant = { λ a. IsStrictlySortedBy key_cmp a.keys.value.items × AreFlat a.values.items };

    ghost size = { rows_weight };

    ghost use Rattle.cel_value.specs.Falls.{rows_fall};

    ghost size_decreases = { λ a h. rows_fall a h.1 };
}

impl Model for Map {
    ghost use Rattle.std.specs.Coded.{codes, code_by};
    ghost use Rattle.cel_value.specs.Data as seen;
    ghost use Rattle.cel_value.specs.Coded.{Marks, entries_to, entries_from, entries_back};

    ghost Value = { seen.Entries };

    ghost coded = { code_by Marks (Prim.hlevel codes) entries_to entries_from entries_back };

    ghost use Rattle.cel_value.specs.Blocks.{HasRow, map_in};
    ghost use Rattle.cel_value.specs.Weights.{map_weight};

    ghost view = { λ a. map_in a.block.value a.row };

    ghost invariant = { λ a. HasRow a.block.value a.row };

    ghost size = { map_weight };

    ghost use Rattle.cel_value.specs.Falls.{map_falls};

    ghost size_decreases = { λ a h. map_falls a };
}

impl Model for Held {
    ghost use Rattle.std.specs.Coded.{codes, code_by};
    ghost use Rattle.cel_value.specs.Data as seen;
    ghost use Rattle.cel_value.specs.Coded.{Marks, items_to, items_from, items_back};

    ghost Value = { seen.Items };

    ghost coded = { code_by Marks (Prim.hlevel codes) items_to items_from items_back };

    ghost use Rattle.std.specs.Prelude.{◌≡◌, ◌≤◌, suc};
    ghost use Rattle.cel_value.specs.Levels.{items_levels, max_levels};
    ghost use Rattle.cel_value.specs.Same.{items_have_double};
    ghost use Rattle.cel_value.specs.View.{view as seen_as, alone};
    ghost use Rattle.cel_value.specs.Weights.{items_weight};

    ghost view = { λ a. alone (seen_as a.value) };

    ghost invariant = { λ a. (a.doubles ≡ items_have_double (alone (seen_as a.value)))
        × (a.levels ≡ suc (items_levels (alone (seen_as a.value)))) × (a.levels ≤ max_levels) };

    ghost size = { items_weight };

    ghost use Rattle.cel_value.specs.Falls.{held_falls};

    ghost size_decreases = { λ a h. held_falls a };
}

impl Model for OptionalValue {
    ghost use Rattle.std.specs.Coded.{codes, code_by};
    ghost use Rattle.cel_value.specs.Data as seen;
    ghost use Rattle.cel_value.specs.Coded.{Marks, items_to, items_from, items_back};

    ghost Value = { seen.Items };

    ghost coded = { code_by Marks (Prim.hlevel codes) items_to items_from items_back };

    ghost use Rattle.cel_value.specs.View.{held_view};
    ghost use Rattle.cel_value.specs.Weights.{held_weight};

    ghost view = { λ a. held_view a.held };

    ghost size = { held_weight };

    ghost use Rattle.cel_value.specs.Falls.{optional_falls};

    ghost size_decreases = { λ a h. optional_falls a };
}

/// Returns the number of levels of a list, map or optional whose contents have `inner` levels.
///
/// # Errors
/// [`AllocError`] if there are more than [`MAX_VALUE_LEVELS`].
fn level_around(inner: u16) -> Result<u16, AllocError>
    ensures value { IfOk result (λ n. (n ≡ suc inner) × (n ≤ max_levels)) }
{
    if inner < MAX_VALUE_LEVELS {
        Ok(inner + 1)
    } else {
        Err(AllocError)
    }
}

impl Value {
    /// Reports whether the value is or contains a double, at any depth.
    pub fn holds_double(&self) -> bool
        ensures { result ≡ has_double (view self.now) }
    {
        match self {
            Value::Float => true,
            Value::List(items) => items.doubles,
            Value::Map(map) => map.holds_double(),
            Value::Optional(optional) => match &optional.held {
                Some(held) => held.doubles,
                None => false,
            },
            _ => false,
        }
    }

    /// The number of levels of nested lists, maps and optionals in the value.
    pub fn levels(&self) -> u16
        ensures value { result ≡ levels (view self.now) }
        ensures limit { result ≤ max_levels }
    {
        match self {
            Value::List(items) => items.levels,
            Value::Map(map) => map.levels(),
            Value::Optional(optional) => match &optional.held {
                Some(held) => held.levels,
                None => 1,
            },
            _ => 0,
        }
    }
}
