//! Which task has too many ports.

ghost use Rattle.std.specs.Prelude.{◌≡◌};
ghost use Rattle.giotto_faults.specs.Ports.{word_of_group};

use giotto_read::text::tokens::{Keyword, PlacedToken, Symbol, Token};
use giotto_tasks::names::Name;

/// A group of a task's ports.
#[derive(Clone, Copy, Debug, PartialEq, Eq)]
pub enum PortGroup {
    Inputs,
    Outputs,
    States,
}

impl PortGroup {
    /// What the ports of the group are called.
    pub fn as_str(self) -> &'static str
        ensures { result.now ≡ word_of_group self }
    {
        match self {
            PortGroup::Inputs => "inputs",
            PortGroup::Outputs => "outputs",
            PortGroup::States => "states",
        }
    }
}

/// The first port of a task that is too many: the 17th of its group.
#[derive(Drop)]
pub struct CrowdedPort {
    pub task: Name,
    pub group: PortGroup,
    /// The offset of the port's name in the text, in bytes.
    pub offset: usize,
}

// The head of a task as far as it is read: its name, the current group, and how many ports of that group came so far.
#[derive(Drop)]
struct Head<'a> {
    task: Option<&'a Name>,
    group: PortGroup,
    count: usize,
}

impl<'a> Head<'a> {
    fn new() -> Head<'a> {
        Head {
            task: None,
            group: PortGroup::Inputs,
            count: 0,
        }
    }

    fn begin(&mut self, group: PortGroup) {
        self.group = group;
        self.count = 0;
    }

    // Takes a name: the task's, or a port's. Returns the task if this port is the 17th of its group.
    fn take(&mut self, name: &'a Name) -> Option<&'a Name> {
        let Some(task) = self.task else {
            self.task = Some(name);
            return None;
        };
        self.count = self.count.saturating_add(1);
        if self.count > 16 { Some(task) } else { None }
    }
}

/// The first port in the tokens of a program that is the 17th of its group.
pub(crate) fn first_crowded(tokens: &[PlacedToken]) -> Option<CrowdedPort> {
    let mut head = None;
    for placed in tokens {
        match (&placed.token, &mut head) {
            (Token::Keyword(Keyword::Task), _) => head = Some(Head::new()),
            (Token::Symbol(Symbol::OpenBrace), _) => head = None,
            (Token::Keyword(Keyword::Output), Some(head)) => head.begin(PortGroup::Outputs),
            (Token::Keyword(Keyword::State), Some(head)) => head.begin(PortGroup::States),
            (Token::Name(name), Some(head)) => {
                if let Some(task) = head.take(name) {
                    return Some(CrowdedPort {
                        task: task.copy(),
                        group: head.group,
                        offset: placed.offset,
                    });
                }
            }
            _ => {}
        }
    }
    None
}
