/// As `on_open`; but an end of a shared host goes to a function of its own, which does all of it, so
/// that the call on an own host saves no register. It goes there `with end`, taken out, where that
/// is still passed in a register, and else is put back before.
macro_rules! on_own {
    ($alloc:ident, $held:ident, in $c:ident $(and $d:ident)?, $call:ident($($argument:ident),+)
        if $check:ident($($asked:ident),+), else $shared:ident) => {{
        let Some(mut end) = $crate::held::take($alloc, $held) else {
            return $crate::status::CLOSED;
        };
        match &mut *end {
            hd_ends::End::Own(own) => {
                if !$check(own.contexts(), $c, $($d,)? $($asked),+) {
                    $crate::held::put($held, end);
                    return $crate::status::ARGUMENT;
                }
                let status = $call(own, $c, $($d,)? $($argument),+);
                $crate::held::put($held, end);
                status
            }
            hd_ends::End::Shared(_) => {
                $crate::held::put($held, end);
                $shared($alloc, $held, $c, $($d,)? $($argument),+)
            }
        }
    }};
    ($alloc:ident, $held:ident, in $c:ident, $call:ident($($argument:ident),+)
        if $check:ident($($asked:ident),+), else $shared:ident with end) => {{
        let Some(mut end) = $crate::held::take($alloc, $held) else {
            return $crate::status::CLOSED;
        };
        match &mut *end {
            hd_ends::End::Own(own) => {
                if !$check(own.contexts(), $c, $($asked),+) {
                    $crate::held::put($held, end);
                    return $crate::status::ARGUMENT;
                }
                let status = $call(own, $c, $($argument),+);
                $crate::held::put($held, end);
                status
            }
            hd_ends::End::Shared(_) => $shared($held, $c, $($argument),+, end),
        }
    }};
    ($alloc:ident, $held:ident, $call:ident($($argument:ident),+), else $shared:ident with end) => {{
        let Some(mut end) = $crate::held::take($alloc, $held) else {
            return $crate::status::CLOSED;
        };
        match &mut *end {
            hd_ends::End::Own(own) => {
                let status = $call(own, $($argument),+);
                $crate::held::put($held, end);
                status
            }
            hd_ends::End::Shared(_) => $shared($held, $($argument),+, end),
        }
    }};
}

pub(crate) use on_own;

/// Calls a function on the host of an end of a shared host, which was taken out and is put back, at
/// its turn, where the arguments are in range, and returns its status.
macro_rules! on_shared {
    ($held:ident, $end:ident, in $c:ident, $call:ident($($argument:ident),+)
        if $check:ident($($asked:ident),+)) => {{
        let hd_ends::End::Shared(shared) = &mut *$end else {
            unreachable!()
        };
        if !$check(shared.sharer.contexts(), $c, $($asked),+) {
            $crate::held::put($held, $end);
            return $crate::status::ARGUMENT;
        }
        let at = shared.sharer.first() + $c;
        if !shared.sharer.enter() {
            $crate::held::put($held, $end);
            return $crate::status::BUSY;
        }
        let status = $call(shared.sharer.host(), at, $($argument),+);
        shared.sharer.leave();
        $crate::held::put($held, $end);
        status
    }};
    ($held:ident, $end:ident, $call:ident($($argument:ident),+)) => {{
        let hd_ends::End::Shared(shared) = &mut *$end else {
            unreachable!()
        };
        if !shared.sharer.enter() {
            $crate::held::put($held, $end);
            return $crate::status::BUSY;
        }
        let status = $call(shared.sharer.host(), $($argument),+);
        shared.sharer.leave();
        $crate::held::put($held, $end);
        status
    }};
}

pub(crate) use on_shared;
