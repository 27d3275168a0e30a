ghost use Rattle.std.specs.Prelude.{◌≡◌};
ghost use Rattle.hd_model.specs.{declared.data.Addr.Addr, Kinds.is_paired, State.Handle, Role.role_of};
ghost use Rattle.hd_model.specs.Handles.{extra_of, role_as};
ghost use Rattle.hd_scan.specs.Tasks.{takes, task_kind, task_role, is_clearing, is_role};
ghost use Rattle.hd_seg.specs.Row.{row_of};

use hd_model::{Addr, Extra, Kind, Role, role_by};
use hd_seg::Row;

/// What a pass does, and to which handles. The first four promote the targets of the handles that
/// hold them, and pin those of the ones that pin; the others clear the handles whose target is not
/// promoted.
#[derive(Clone, Copy, Debug, PartialEq, Eq)]
pub enum Task {
    Strong,
    Pinned,
    /// The variable handles of strength strong or pinned.
    VariableRoots,
    /// The ref-counted handles with a count above 0.
    CountedRoots,
    ClearShort,
    ClearLong,
    /// The variable handles of strength short.
    ClearVariableShort,
    /// The variable handles of strength long.
    ClearVariableLong,
    /// The ref-counted handles with a count of 0.
    ClearCounted,
}

impl Task {
    /// All that promote the targets of handles.
    pub const ROOTS: [Task; 4] = [
        Task::Strong,
        Task::Pinned,
        Task::VariableRoots,
        Task::CountedRoots,
    ];

    /// All that clear weak handles before finalization.
    pub const CLEARS_SHORT: [Task; 2] = [Task::ClearShort, Task::ClearVariableShort];

    /// All that clear weak handles after it.
    pub const CLEARS_LONG: [Task; 3] = [
        Task::ClearLong,
        Task::ClearVariableLong,
        Task::ClearCounted,
    ];

    /// The kind of handle that it goes over.
    pub(crate) fn kind(self) -> Kind
        ensures { result ≡ task_kind self }
    {
        match self {
            Task::Strong => Kind::Strong,
            Task::Pinned => Kind::Pinned,
            Task::VariableRoots | Task::ClearVariableShort | Task::ClearVariableLong => {
                Kind::Variable
            }
            Task::CountedRoots | Task::ClearCounted => Kind::Counted,
            Task::ClearShort => Kind::Short,
            Task::ClearLong => Kind::Long,
        }
    }

    /// The role of the handles that it takes.
    fn role(self) -> Role
        ensures { role_as result ≡ task_role self }
    {
        match self {
            Task::Strong | Task::Pinned | Task::VariableRoots | Task::CountedRoots => Role::Holds,
            Task::ClearShort | Task::ClearVariableShort => Role::Short,
            Task::ClearLong | Task::ClearVariableLong | Task::ClearCounted => Role::Long,
        }
    }

    /// Whether it clears handles, where the others promote their targets.
    pub(crate) fn clears(self) -> bool
        ensures { result ≡ is_clearing self }
    {
        match self {
            Task::Strong | Task::Pinned | Task::VariableRoots | Task::CountedRoots => false,
            Task::ClearShort
            | Task::ClearLong
            | Task::ClearVariableShort
            | Task::ClearVariableLong
            | Task::ClearCounted => true,
        }
    }

    /// Whether it takes a handle of its kind, which has extras or not, by its row.
    #[inline(always)]
    pub(crate) fn takes_row(self, row: Row, paired: bool) -> bool
        requires { is_paired (task_kind self) ≡ paired }
        ensures { (h : Handle Addr) → h.kind ≡ task_kind self → row ≡ row_of h →
            result ≡ takes self h }
    {
        if !paired {
            return true;
        }
        self.takes(row.extra)
    }

    /// Whether it takes a handle of its kind with an extra.
    pub(crate) fn takes(self, extra: Extra<Addr>) -> bool
        ensures { result ≡ is_role (task_role self) (role_of (task_kind self) (extra_of extra)) }
    {
        self.role() == role_by(self.kind(), extra)
    }
}
