// A program that runs, and that it has ended.

/// A program: the system that it runs on, and the name by which it speaks.
#[derive(Clone, Copy)]
pub struct Program<'a> {
    pub rt: &'a HostRuntime,
    pub name: &'a str,
}

/// A program ends without having done its work, and has said why.
#[derive(Clone, Copy)]
pub struct Ended;
