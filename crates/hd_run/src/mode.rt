// The modes of the program.
ghost use Rattle.std.specs.Prelude.{◌≡◌};
ghost use Rattle.hd_run.specs.Modes.{mode_of, traits_of, runs_alone, output_by};

use hd_print::Form;

/// The modes of the program.
#[derive(Clone, Copy)]
pub(crate) enum Mode {
    Solo,
    Run,
    Load,
    Roots,
    Audit,
}

/// How a run is written: a line for each entry and one for its end, or one line for all.
#[derive(Clone, Copy)]
pub(crate) enum Output {
    Lines(Form),
    Summary,
}

/// How a script is run.
#[derive(Clone, Copy)]
pub(crate) struct Manner {
    /// Each caller has a thread of its own.
    pub(crate) threads: bool,
    /// The roots of the world are listed afterwards.
    pub(crate) lists_roots: bool,
}

/// What a mode is.
#[derive(Clone, Copy)]
pub(crate) struct Traits {
    /// It runs the script that the source gives, and else makes that of a load.
    pub(crate) reads: bool,
    pub(crate) manner: Manner,
    /// It judges a text against the script, and runs nothing.
    pub(crate) judges: bool,
    /// How it writes a run where the words ask for plain lines, and how where for full ones.
    pub(crate) plain: Output,
    pub(crate) full: Output,
}

impl Mode {
    /// The mode of a name.
    pub(crate) fn of(name: &str) -> Option<Mode>
        ensures { result ≡ mode_of name.now }
    {
        match name {
            "solo" => Some(Mode::Solo),
            "run" => Some(Mode::Run),
            "load" => Some(Mode::Load),
            "roots" => Some(Mode::Roots),
            "audit" => Some(Mode::Audit),
            _ => None,
        }
    }

    /// What the mode is.
    pub(crate) fn traits(self) -> Traits
        ensures { result ≡ traits_of self }
    {
        let (reads, threads, lists_roots, judges) = match self {
            Mode::Solo => (true, false, false, false),
            Mode::Run => (true, true, false, false),
            Mode::Load => (false, true, false, false),
            Mode::Roots => (true, false, true, false),
            Mode::Audit => (true, false, false, true),
        };
        let (plain, full) = match self {
            Mode::Solo | Mode::Run => (Output::Lines(Form::Plain), Output::Lines(Form::Full)),
            Mode::Load => (Output::Summary, Output::Summary),
            Mode::Roots | Mode::Audit => (Output::Lines(Form::Plain), Output::Lines(Form::Plain)),
        };
        Traits {
            reads,
            manner: Manner {
                threads,
                lists_roots,
            },
            judges,
            plain,
            full,
        }
    }
}

impl Traits {
    /// Whether one thread runs the script, and lists the roots or not.
    pub(crate) fn runs_alone(self, lists_roots: bool) -> bool
        ensures { result ≡ runs_alone lists_roots self }
    {
        if lists_roots {
            !self.manner.threads && self.manner.lists_roots && !self.judges
        } else {
            !self.manner.threads && !self.manner.lists_roots && !self.judges
        }
    }

    /// How it writes a run, where lines of a form are asked for.
    pub(crate) fn output(self, form: Form) -> Output
        ensures { result ≡ output_by form self }
    {
        match form {
            Form::Plain => self.plain,
            Form::Full => self.full,
        }
    }
}
