use crate::sharer::Sharer;
use hd_host::Host;
use std::marker::Model;

/// One thread's end of a host.
#[derive(Drop)]
pub enum End {
    /// The only one of a host of its own.
    Own(Host),
    /// One of up to sixteen of a host that they share.
    Shared(Shared),
}

/// An end of a shared host between two turns: it has not got the gate. Contracts see what it knows.
#[derive(Drop)]
pub struct Shared {
    pub sharer: Sharer,
}

impl Model for Shared {
    ghost use Rattle.std.specs.Prelude.{◌≡◌, false};
    ghost use Rattle.hd_ends.specs.Ends.{EndView, end_view_code};

    ghost Value = { EndView };

    ghost coded = { end_view_code };

    ghost view = { λ s. s.sharer.end };

    ghost invariant = { λ s. s.sharer.has_gate ≡ false };
}
