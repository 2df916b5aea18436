//! What the words ask for.

/// `compile DESC`: the name of the file.
#[derive(Clone, Copy, Debug)]
pub struct CompileOrder<'a> {
    pub description: &'a str,
}

/// `replay DESC TRACE`: the names of the two files.
#[derive(Clone, Copy, Debug)]
pub struct ReplayOrder<'a> {
    pub description: &'a str,
    pub trace: &'a str,
}

/// `walk TABLES TRACE`: the names of the two files.
#[derive(Clone, Copy, Debug)]
pub struct WalkOrder<'a> {
    pub tables: &'a str,
    pub trace: &'a str,
}

/// `schedule DESC BLOCK`: the names of the two files.
#[derive(Clone, Copy, Debug)]
pub struct ScheduleOrder<'a> {
    pub description: &'a str,
    pub block: &'a str,
}

/// `eval BLOCK STATE`: the names of the two files.
#[derive(Clone, Copy, Debug)]
pub struct EvalOrder<'a> {
    pub block: &'a str,
    pub state: &'a str,
}

/// `drill DESC NUMBER COUNT`: the name of the file, the number that is drawn from, and how many turns there are.
#[derive(Clone, Copy, Debug)]
pub struct DrillOrder<'a> {
    pub description: &'a str,
    pub number: u32,
    pub turns: u32,
}

/// `timed DESC BLOCK STATE`: the names of the three files.
#[derive(Clone, Copy, Debug)]
pub struct TimedOrder<'a> {
    pub description: &'a str,
    pub block: &'a str,
    pub state: &'a str,
}

/// `bound DESC BLOCK`: the names of the two files.
#[derive(Clone, Copy, Debug)]
pub struct BoundOrder<'a> {
    pub description: &'a str,
    pub block: &'a str,
}

/// `duo DESC BLOCK BLOCK`: the names of the three files, the blocks in the order of their contexts.
#[derive(Clone, Copy, Debug)]
pub struct DuoOrder<'a> {
    pub description: &'a str,
    pub first: &'a str,
    pub second: &'a str,
}

/// `modulo DESC BLOCK`: the names of the two files.
#[derive(Clone, Copy, Debug)]
pub struct ModuloOrder<'a> {
    pub description: &'a str,
    pub block: &'a str,
}

/// A command with the names of its files and its numbers.
#[derive(Clone, Copy, Debug)]
pub enum Order<'a> {
    Compile(CompileOrder<'a>),
    Replay(ReplayOrder<'a>),
    Walk(WalkOrder<'a>),
    Schedule(ScheduleOrder<'a>),
    Eval(EvalOrder<'a>),
    Drill(DrillOrder<'a>),
    Timed(TimedOrder<'a>),
    Bound(BoundOrder<'a>),
    Duo(DuoOrder<'a>),
    Modulo(ModuloOrder<'a>),
}
