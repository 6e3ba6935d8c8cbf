// The room that is left at servers or at hosts.

ghost use Rattle.std.specs.Prelude.{◌≡◌, ◌<◌, IfSome, length, nat_lt, slice_index};
ghost use Rattle.hsp_price_dispatch.specs.Holding.{one_less, one_less_on};

/// For each of several servers or hosts, how many queries more it takes, and how much of that is held for classes.
#[derive(Drop)]
pub(crate) struct Rooms {
    pub(crate) left: Vec<u64>,
    pub(crate) held: Vec<u128>,
    ghost same_many: { length held.items ≡ length left.items },
}

impl Rooms {
    /// Whether more room is left at a place than is held there.
    pub(crate) fn is_free(&self, place: usize) -> bool
        requires { place < length self.now.left.items }
        ensures { result ≡ nat_lt (slice_index self.now.held.items place)
            (slice_index self.now.left.items place) }
    {
        self.held[place] < u128::from(self.left[place])
    }

    /// Whether room is left at a place.
    pub(crate) fn has_room(&self, place: usize) -> bool
        requires { place < length self.now.left.items }
        ensures { result ≡ nat_lt 0 (slice_index self.now.left.items place) }
    {
        self.left[place] > 0
    }

    /// Takes one query of the room at a place, where room is left.
    pub(crate) fn take(&mut self, place: usize)
        requires inside { place < length self.old.left.items }
        requires room { 0 < slice_index self.old.left.items place }
        ensures left { self.new.left.items ≡ one_less self.old.left.items place }
        ensures held { self.new.held.items ≡ self.old.held.items }
    {
        self.left[place] -= 1;
    }

    /// Holds one query less at a place, where some are held.
    pub(crate) fn release(&mut self, place: usize)
        requires inside { place < length self.old.left.items }
        requires held { 0 < slice_index self.old.held.items place }
        ensures left { self.new.left.items ≡ self.old.left.items }
        ensures held { self.new.held.items ≡ one_less self.old.held.items place }
    {
        self.held[place] -= 1;
    }

    /// Takes one query of the room at a host, if there is one, where room is left.
    pub(crate) fn take_on(&mut self, host: Option<u32>)
        requires inside { IfSome host (λ h. h < length self.old.left.items) }
        requires room { IfSome host (λ h. 0 < slice_index self.old.left.items h) }
        ensures left { self.new.left.items ≡ one_less_on self.old.left.items host }
        ensures held { self.new.held.items ≡ self.old.held.items }
    {
        if let Some(host) = host {
            self.take(host as usize);
        }
    }

    /// Holds one query less at a host, if there is one, where some are held.
    pub(crate) fn release_on(&mut self, host: Option<u32>)
        requires inside { IfSome host (λ h. h < length self.old.left.items) }
        requires held { IfSome host (λ h. 0 < slice_index self.old.held.items h) }
        ensures left { self.new.left.items ≡ self.old.left.items }
        ensures held { self.new.held.items ≡ one_less_on self.old.held.items host }
    {
        if let Some(host) = host {
            self.release(host as usize);
        }
    }
}
