ghost use Rattle.std.specs.Prelude.{◌≡◌, ◌≤◌, ◌++◌, ◌∷◌, [], map, MatchOption, IfNone, OnOk};
ghost use Rattle.prolog_write.specs.Text.{form};
ghost use Rattle.prolog_write.specs.Duties.{bracketed, compound_duties, term_duties, rest_duties, duties as duties_of, duty_of, pushed, is_cell_form, HasArguments};

use crate::form::{Form, form_of, is_operator};
use crate::lexeme::Lexeme;
use crate::mode::Mode;
use crate::place::Place;
use crate::task::{Task, Want};
use std::alloc::Global;
use std::marker::Model;
use term_core::{Memory, Node};

// The tasks that are left, the next one last.
#[derive(Debug, Drop)]
pub(crate) struct Stack<'a> {
    mode: Mode,
    tasks: Vec<Task<'a>>,
}

impl<'a> Model for Stack<'a> {
    ghost use Rattle.prolog_write.specs.Duties.{Owing, stacked};

    ghost Value = { Owing };

    ghost view = { λ s. record { mode = s.mode; duties = stacked s.mode s.tasks.items } };
}

impl<'a> Stack<'a> {
    pub(crate) fn new(alloc: Global, mode: Mode) -> Stack<'a>
        ensures { result ≡ record { mode = mode; duties = [] } }
    {
        Stack {
            mode,
            tasks: Vec::new(alloc),
        }
    }

    pub(crate) fn mode(&self) -> Mode
        ensures { result ≡ self.now.mode }
    {
        self.mode
    }

    pub(crate) fn push(&mut self, task: Task<'a>) -> Result<(), Memory>
        ensures { OnOk result (self.new ≡ pushed self.old (duty_of self.old.mode task.entry ∷ [])) }
    {
        self.tasks.push(task)?;
        Ok(())
    }

    pub(crate) fn pop(&mut self) -> Option<Task<'a>>
        ensures next { MatchOption result (self.old.duties ≡ []) (λ t. self.old ≡ pushed self.new (duty_of self.old.mode t ∷ [])) }
        ensures none { IfNone result (self.new ≡ self.old) }
        ensures mode { self.new.mode ≡ self.old.mode }
    {
        self.tasks.pop()
    }

    // Takes on what a node stands for where it is wanted.
    pub(crate) fn expand(&mut self, want: Want, node: &'a Node) -> Result<(), Memory>
        requires { HasArguments node.now }
        ensures { OnOk result (self.new ≡ pushed self.old (duties_of self.old.mode want node.now)) }
    {
        match want {
            Want::Term(place) => self.expand_term(place, node),
            Want::Rest => self.expand_rest(node),
        }
    }

    fn expand_term(&mut self, place: Place, node: &'a Node) -> Result<(), Memory>
        requires { HasArguments node.now }
        ensures { OnOk result (self.new ≡ pushed self.old (term_duties self.old.mode place node.now)) }
    {
        match node {
            Node::Var(number) => self.push(Task::Write(Lexeme::Variable(*number))),
            Node::Int(value) => self.push(Task::Write(Lexeme::Integer(*value))),
            Node::Atom(name) => {
                let has_brackets = place.is_operand() && is_operator(name.as_str());
                self.push_bracketed(has_brackets, &[Task::Write(Lexeme::Atom(name.as_str()))])
            }
            Node::Comp(name, count) => self.expand_compound(place, name.as_str(), *count),
        }
    }

    fn expand_compound(&mut self, place: Place, name: &'a str, count: u32) -> Result<(), Memory>
        requires { 1 ≤ count }
        ensures { OnOk result (self.new ≡ pushed self.old (compound_duties self.old.mode place name.now count (form self.old.mode name.now count))) }
    {
        match form_of(self.mode(), name, count) {
            Form::Curly => self.push_all(&[mark(b'{'), term(Place::Whole), mark(b'}')]),
            Form::Cell => self.push_all(&[
                mark(b'['),
                term(Place::Argument),
                Task::Take(Want::Rest),
            ]),
            Form::Prefix(op) => self.push_bracketed(
                place.most() < op.priority,
                &[
                    Task::Write(Lexeme::Prefix(name)),
                    term(Place::Operand(op.right())),
                ],
            ),
            Form::Infix(op) => self.push_bracketed(
                place.most() < op.priority,
                &[
                    term(Place::Operand(op.left())),
                    Task::Write(Lexeme::Infix(name)),
                    term(Place::Operand(op.right())),
                ],
            ),
            Form::Call => self.push_all(&[
                Task::Write(Lexeme::Atom(name)),
                mark(b'('),
                term(Place::Argument),
                Task::Arguments(count - 1),
            ]),
        }
    }

    fn expand_rest(&mut self, node: &'a Node) -> Result<(), Memory>
        requires { HasArguments node.now }
        ensures { OnOk result (self.new ≡ pushed self.old (rest_duties self.old.mode node.now)) }
    {
        match node {
            Node::Atom(name) if name.as_str() == "[]" => self.push(mark(b']')),
            Node::Comp(name, count) if is_cell(self.mode(), name.as_str(), *count) => {
                self.push_all(&[mark(b','), term(Place::Argument), Task::Take(Want::Rest)])
            }
            other => {
                self.push(mark(b']'))?;
                self.expand_term(Place::Argument, other)?;
                self.push(mark(b'|'))
            }
        }
    }

    // Puts tasks on the stack, in round brackets or not, the first of them next.
    fn push_bracketed(&mut self, has_brackets: bool, upcoming: &[Task<'a>]) -> Result<(), Memory>
        ensures { OnOk result (self.new ≡ pushed self.old (bracketed has_brackets (map (duty_of self.old.mode) upcoming.now))) }
    {
        if !has_brackets {
            return self.push_all(upcoming);
        }
        self.push(mark(b')'))?;
        self.push_all(upcoming)?;
        self.push(mark(b'('))
    }

    fn push_all(&mut self, upcoming: &[Task<'a>]) -> Result<(), Memory>
        ensures { OnOk result (self.new ≡ pushed self.old (map (duty_of self.old.mode) upcoming.now)) }
    {
        for i in 0..upcoming.len() {
            self.push(upcoming[upcoming.len() - 1 - i])?;
        }
        Ok(())
    }
}

// Whether a compound is a list cell.
fn is_cell(mode: Mode, name: &str, count: u32) -> bool
    ensures { result ≡ is_cell_form (form mode name.now count) }
{
    matches!(form_of(mode, name, count), Form::Cell)
}

fn mark<'a>(byte: u8) -> Task<'a>
    ensures { result ≡ Task.Write (Lexeme.Mark byte) }
{
    Task::Write(Lexeme::Mark(byte))
}

fn term<'a>(place: Place) -> Task<'a>
    ensures { result ≡ Task.Take (Want.Term place) }
{
    Task::Take(Want::Term(place))
}
