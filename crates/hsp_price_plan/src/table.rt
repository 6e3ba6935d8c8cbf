// A table of groups that is filled row by row.

ghost use Rattle.std.specs.Prelude.{◌≡◌, ◌+◌, ◌++◌, ◌∷◌, ◌<◌, ◌≤◌, ◌^◌, ℕ, List, [], None, OnErr, OnOk, length};
ghost use Rattle.std.specs.Prelude.{position};
ghost use Rattle.hsp_instance.specs.declared.arc.Arc.{Arc as SpecArc};
ghost use Rattle.hsp_prices.specs.Least.{servers_of};
ghost use Rattle.hsp_price_check.specs.KindKeys.{key_in};
ghost use Rattle.hsp_prices.specs.Groups.{Group, is_same};
ghost use Rattle.hsp_prices.specs.KeptRows.{KeptRow};
ghost use Rattle.hsp_price_plan.specs.Grouping.{AreArcsBy, HasGroups, IsGrouping, IsOfRow, demand_of, is_keyed};
ghost use Rattle.hsp_price_plan.specs.Grouping.{with_count_at};

use crate::group::RowGroup;
use crate::row_hash::RowHash;
use hsp_instance::Arc;
use hsp_price_check::{KindKey, LentKind, fill_servers};
use indexmap::IndexMap;
use std::alloc::{AllocError, Global};
use std::marker::Model;

// The number of the group of each region and servers.
type GroupNumbers = IndexMap<KindKey, usize, RowHash>;

// The number of the group of a region and servers, or None where there is none.
fn find_group(numbers: &GroupNumbers, region: &[u8], servers: &[u32]) -> Option<usize>
    ensures { (groups : List Group) → HasGroups groups numbers.now.entries
        → result ≡ position (is_keyed region.now servers.now) groups }
{
    let places = servers;
    numbers.get(LentKind { region, places }).copied()
}

// Adds the count of one more row to a group.
fn add_to_group(groups: &mut [RowGroup], number: usize, count: u64)
    requires number { number < length groups.old }
    requires sum { demand_of groups.old + count < 2 ^ 64 }
    ensures { groups.new ≡ with_count_at groups.old number count }
{
    groups[number].add(count);
}

// Puts a group behind the others, with its number by its key.
fn push_group(
    groups: &mut Vec<RowGroup>,
    numbers: &mut GroupNumbers,
    key: KindKey,
    group: RowGroup,
) -> Result<(), AllocError>
    requires found { HasGroups groups.old.items numbers.old.entries }
    requires key { key_in key ≡ record { region = group.region; places = servers_of group.arcs } }
    requires new { position (λ g. is_same g group) groups.old.items ≡ None }
    ensures found { HasGroups groups.new.items numbers.new.entries }
    ensures added { OnOk result (groups.new.items ≡ groups.old.items ++ group ∷ []) }
    ensures same { OnErr result (groups.new.items ≡ groups.old.items) }
{
    groups.reserve(1)?;
    let number = groups.len();
    numbers.insert(key, number)?;
    groups.push(group)?;
    Ok(())
}

/// The groups of the rows that were added. Rows of one region whose kept arcs lead to the same servers are one group.
#[derive(Drop)]
pub struct GroupTable {
    groups: Vec<RowGroup>,
    numbers: GroupNumbers,
    servers: Vec<u32>,
}

impl Model for GroupTable {
    ghost use Rattle.std.specs.Prelude.{List};
    ghost use Rattle.hsp_prices.specs.Groups.{Group};
    ghost use Rattle.hsp_price_plan.specs.Grouping.{HasGroups};

    ghost Value = { List Group };

    ghost view = { λ t. t.groups.items };

    ghost invariant = { λ t. HasGroups t.groups.items t.numbers.entries };
}

impl GroupTable {
    /// The groups of no rows. They are found by a hash with this key, and are the same by each.
    pub fn new(alloc: Global, key: u64) -> GroupTable
        ensures groups { result ≡ [] }
        ensures grouped { (arc_by : List ℕ → ℕ → SpecArc) → IsGrouping arc_by [] result }
    {
        GroupTable {
            groups: Vec::new(alloc),
            numbers: GroupNumbers::with_hasher(alloc, RowHash::by(key)),
            servers: Vec::new(alloc),
        }
    }

    /// Adds a row of a region with its kept arcs, which asks for `count` queries. All rows together ask for less than
    /// 2^64.
    ///
    /// A function of the region and the server has to give each kept arc, so that rows of one region whose kept arcs
    /// lead to the same servers keep the same arcs.
    ///
    /// # Errors
    ///
    /// An `AllocError` where memory runs out. The groups are then those that they were.
    pub fn add(
        &mut self,
        alloc: Global,
        region: &[u8],
        kept: &[Arc],
        count: u64,
    ) -> Result<(), AllocError>
        requires { demand_of self.old + count < 2 ^ 64 }
        ensures grouped { OnOk result ((arc_by : List ℕ → ℕ → SpecArc) (rows : List KeptRow)
            (row : KeptRow) → IsGrouping arc_by rows self.old
            → IsOfRow row region.now kept.now count → AreArcsBy arc_by region.now kept.now
            → IsGrouping arc_by (rows ++ row ∷ []) self.new) }
        ensures demand { OnOk result (demand_of self.new ≡ demand_of self.old + count) }
        ensures few { length self.new ≤ length self.old + 1 }
        ensures same { OnErr result (self.new ≡ self.old) }
    {
        fill_servers(&mut self.servers, kept)?;
        match find_group(&self.numbers, region, &self.servers) {
            Some(number) => {
                add_to_group(&mut self.groups, number, count);
                Ok(())
            }
            None => {
                let key = KindKey::new(alloc, region, &self.servers)?;
                let group = RowGroup::new(alloc, region, kept, count)?;
                push_group(&mut self.groups, &mut self.numbers, key, group)
            }
        }
    }

    /// The groups.
    pub fn into_groups(self) -> Vec<RowGroup>
        ensures { result.items ≡ self }
    {
        self.groups
    }
}
