// Calls on the end that C holds.

pub(crate) use hd_held::{Held, put, take};

/// Calls a function on the host of an end at its turn, where the arguments are in range, and returns
/// its status. With `in c`, or `in c and d`, the function and the check also take a context, or two,
/// which are the end's own.
macro_rules! on_open {
    ($alloc:ident, $held:ident, in $c:ident $(and $d:ident)?, $call:ident($($argument:ident),+)
        if $check:ident($($asked:ident),*)) => {{
        let Some(mut end) = $crate::held::take($alloc, $held) else {
            return $crate::status::CLOSED;
        };
        match &mut *end {
            hd_ends::End::Own(own) => {
                if !$check(own.contexts(), $c, $($d,)? $($asked),*) {
                    $crate::held::put($held, end);
                    return $crate::status::ARGUMENT;
                }
                let status = $call(own, $c, $($d,)? $($argument),+);
                $crate::held::put($held, end);
                status
            }
            hd_ends::End::Shared(shared) => {
                if !$check(shared.sharer.contexts(), $c, $($d,)? $($asked),*) {
                    $crate::held::put($held, end);
                    return $crate::status::ARGUMENT;
                }
                let at = shared.sharer.first() + $c;
                $(let $d = shared.sharer.first() + $d;)?
                if !shared.sharer.enter() {
                    $crate::held::put($held, end);
                    return $crate::status::BUSY;
                }
                let status = $call(shared.sharer.host(), at, $($d,)? $($argument),+);
                shared.sharer.leave();
                $crate::held::put($held, end);
                status
            }
        }
    }};
    ($alloc:ident, $held:ident, $call:ident($($argument:ident),+)
        $(if $check:ident($($asked:ident),+))?) => {{
        let Some(mut end) = $crate::held::take($alloc, $held) else {
            return $crate::status::CLOSED;
        };
        $(if !$check($($asked),+) {
            $crate::held::put($held, end);
            return $crate::status::ARGUMENT;
        })?
        match &mut *end {
            hd_ends::End::Own(own) => {
                let status = $call(own, $($argument),+);
                $crate::held::put($held, end);
                status
            }
            hd_ends::End::Shared(shared) => {
                if !shared.sharer.enter() {
                    $crate::held::put($held, end);
                    return $crate::status::BUSY;
                }
                let status = $call(shared.sharer.host(), $($argument),+);
                shared.sharer.leave();
                $crate::held::put($held, end);
                status
            }
        }
    }};
}

pub(crate) use on_open;
