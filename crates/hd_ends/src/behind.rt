ghost use Rattle.std.specs.Prelude.{◌≡◌};
ghost use Rattle.std.specs.Borrow.{Lends, sem};
ghost use Rattle.hd_host.specs.contracts.host.Host as host_contract;
ghost use Rattle.hd_ends.specs.contracts.behind.Behind.{the_row};
ghost use Rattle.hd_ends.specs.Views.{with_shared};

use hd_host::Host;
use hd_turns::Turn;
use std::marker::Model;

/// A host that ends take in turn, which stays where it is, with the number of contexts that each of
/// them has. That is read by the proof alone.
#[derive(Drop)]
pub(crate) struct Behind {
    each: u32,
    host: Host,
}

impl Model for Behind {
    ghost use Rattle.hd_ends.specs.Views.{SharedView, shared_view_code};

    ghost Value = { SharedView };

    ghost coded = { shared_view_code };

    ghost view = { λ b. record { each = b.each; host = b.host } };
}

impl Turn for Behind {
    ghost use Rattle.hd_ends.specs.Views.{SharedTurn};

    ghost turn = { SharedTurn };
}

impl Behind {
    pub(crate) fn of(each: u32, host: Host) -> Behind
        ensures { result ≡ record { each = each; host = host } }
    {
        Behind { each, host }
    }

    #[inline(always)]
    pub(crate) fn host_mut(&mut self) -> &mut Host
        ensures* lends { sem 𝓛 (Lends the_row host_contract.the_row self.entry result
            (with_shared self.old)) }
        ensures value { result.now ≡ self.old.host }
    {
        &mut self.host
    }
}
