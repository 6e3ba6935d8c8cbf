// What a front holds of a plan by prices.

ghost use Rattle.std.specs.Prelude.{◌≡◌, ◌<◌, IfSome, true, length};
ghost use Rattle.hsp_check.specs.ArcFlows.{host_in};
ghost use Rattle.hsp_prices.specs.Least.{host_at};
ghost use Rattle.hsp_price_dispatch.specs.Choosing.{left_with};
ghost use Rattle.hsp_price_dispatch.specs.Holding.{cell_at, has_room_at, is_free_at, with_given, with_query_at};
ghost use Rattle.hsp_price_dispatch.specs.Regions.{has_cost};
ghost use Rattle.hsp_price_dispatch.specs.Taking.{CanTake};

use crate::answer::Choice;
use crate::cells::{Cell, give_one};
use crate::regions::has_cost;
use crate::rooms::Rooms;
use hsp_instance::Instance;
use hsp_price_text::PricedPlan;
use hsp_tables::Costs;
use std::marker::Model;

/// What is left of the amounts of a plan's classes, and the room left at the servers and hosts of a service.
#[derive(Drop)]
pub(crate) struct Holding<'a> {
    pub(crate) instance: &'a Instance,
    pub(crate) costs: &'a Costs,
    pub(crate) plan: &'a PricedPlan,
    pub(crate) server_hosts: Vec<Option<u32>>,
    pub(crate) cells: Vec<Cell>,
    pub(crate) servers: Rooms,
    pub(crate) hosts: Rooms,
}

impl<'a> Model for Holding<'a> {
    ghost use Rattle.hsp_price_check.specs.Classes.{service_of};
    ghost use Rattle.hsp_price_dispatch.specs.Holding.{Held};
    ghost use Rattle.hsp_price_dispatch.specs.Standing.{IsStanding};

    ghost Value = { Held };

    ghost view = { λ t. record {
      service = service_of t.costs.now t.instance.now;
      plan = t.plan.now;
      cells = t.cells.items;
      rooms = t.servers.left.items;
      host_rooms = t.hosts.left.items;
    } };

    ghost invariant = { λ t. IsStanding (record {
      service = service_of t.costs.now t.instance.now;
      plan = t.plan.now;
      cells = t.cells.items;
      rooms = t.servers.left.items;
      host_rooms = t.hosts.left.items;
    }) t.server_hosts.items t.servers.held.items t.hosts.held.items };
}

// The host that a server stands on, in a list of the servers' hosts.
fn host_in(hosts: &[Option<u32>], server: u32) -> Option<u32>
    requires { server < length hosts.now }
    ensures { result ≡ host_in hosts.now server }
{
    hosts[server as usize]
}

impl Holding<'_> {
    // The host that a server stands on, or None.
    fn host(&self, server: u32) -> Option<u32>
        requires { server < length self.now.service.servers }
        ensures host { result ≡ host_at self.now.service server }
        ensures below { IfSome result (λ h. h < length self.now.host_rooms) }
    {
        host_in(&self.server_hosts, server)
    }

    /// Whether a query from a region has a cost at a site.
    pub(crate) fn has_cost(&self, region: &[u8]) -> bool
        ensures { result ≡ has_cost self.now.service region.now }
    {
        has_cost(self.costs, self.instance.sites(), region)
    }

    /// The cells of all classes.
    pub(crate) fn cells(&self) -> &[Cell]
        ensures { result.now ≡ self.now.cells }
    {
        &self.cells
    }

    // The server of a cell.
    fn server_of(&self, number: usize) -> u32
        requires { number < length self.now.cells }
        ensures server { result ≡ (cell_at self.now.cells number).server }
        ensures below { result < length self.now.service.servers }
    {
        self.cells[number].server
    }

    /// Whether more room is left at a server, and at its host, than is held there.
    pub(crate) fn is_free(&self, server: u32) -> bool
        requires { server < length self.now.service.servers }
        ensures { result ≡ is_free_at self.now server }
    {
        if !self.servers.is_free(server as usize) {
            return false;
        }
        match self.host(server) {
            Some(host) => self.hosts.is_free(host as usize),
            None => true,
        }
    }

    /// Whether room is left at a server and at its host.
    pub(crate) fn has_room(&self, server: u32) -> bool
        requires { server < length self.now.service.servers }
        ensures { result ≡ has_room_at self.now server }
    {
        if !self.servers.has_room(server as usize) {
            return false;
        }
        match self.host(server) {
            Some(host) => self.hosts.has_room(host as usize),
            None => true,
        }
    }

    // Takes one query of the room at a server and at its host.
    fn take_room(&mut self, server: u32)
        requires inside { server < length self.old.service.servers }
        requires room { has_room_at self.old server ≡ true }
        ensures { self.new ≡ with_query_at self.old server }
    {
        let host = self.host(server);
        self.servers.take(server as usize);
        self.hosts.take_on(host);
    }

    // Takes one query of what is left in a cell, and holds one query less for it.
    fn take_amount(&mut self, number: usize)
        requires inside { number < length self.old.cells }
        requires left { 0 < (cell_at self.old.cells number).left }
        ensures { self.new ≡ with_given self.old number }
    {
        let server = self.server_of(number);
        let host = self.host(server);
        self.servers.release(server as usize);
        self.hosts.release_on(host);
        give_one(&mut self.cells, number);
    }

    /// Takes the query that the choice is for, where there is room for it.
    pub(crate) fn take(&mut self, choice: Choice)
        requires { CanTake self.old choice }
        ensures { self.new ≡ left_with self.old choice }
    {
        match choice {
            Choice::OfClass(number, arc) => {
                self.take_room(arc.server);
                self.take_amount(number);
            }
            Choice::Free(arc) => self.take_room(arc.server),
            Choice::Diverted(arc) => self.take_room(arc.server),
            Choice::Full => {}
            Choice::Unknown => {}
        }
    }
}
