// The machine that reads a token at a time.
ghost use Rattle.std.specs.Prelude.{◌≡◌, ◌++◌, ◌∷◌, [], ◌+◌, IfOk, OnOk, IfErr, Some, None, Ok, if◌then◌else◌, reverse, map, length, replicate, encode_utf8};
ghost use Rattle.prolog_grammar.specs.Readings.{joins, ends, is_operator, nil};
ghost use Rattle.prolog_grammar.specs.Stack as stack;
ghost use Rattle.prolog_grammar.specs.Stack.{most_at, going_on, infix_row, infix_name, stands_alone, cell, letter_node, kept};
ghost use Rattle.op_table.specs.Table.{row};

use crate::grammar::frame::{Bracket, Frame, Now};
use crate::grammar::lexeme::{Lexeme, Word};
use op_table::{Op, OpKind, Ops};
use std::alloc::Global;
use term_core::{List, Memory, Name, Node};

/// What is open, and the nodes of what was read, arguments before their functor.
#[derive(Debug, Drop)]
pub(crate) struct Machine {
    pub(crate) frames: Vec<Frame>,
    pub(crate) nodes: Vec<Node>,
}

// The greatest priority that a place allows.
fn most_at(frame: &Frame) -> u32
    ensures { result ≡ most_at frame.now }
{
    match frame {
        Frame::Bracket(Bracket::Round | Bracket::Curly) => 1200,
        Frame::Bracket(_) => 999,
        Frame::Prefix(_, op) | Frame::Infix(_, op) => op.right(),
    }
}

// The operator, where it goes on with an operand of priority `left` at a place that allows `most`.
fn going_on(most: u32, left: u32, op: Option<Op>) -> Option<Op>
    ensures { result ≡ going_on most left op }
{
    let op = op?;
    if op.priority <= most && left <= op.left() {
        Some(op)
    } else {
        None
    }
}

// The token's row as an infix operator.
fn infix_row(ops: &Ops, token: &Lexeme) -> Option<Op>
    ensures { result ≡ infix_row (λ f. row f ops.now.before) (λ f. row f ops.now.between) token.now }
{
    match token {
        Lexeme::Name(word) => ops.infix(word.text.as_str()),
        Lexeme::Comma => Some(Op {
            priority: 1000,
            kind: OpKind::Xfy,
        }),
        _ => None,
    }
}

// The name that an infix operator's token stands for.
fn infix_name(alloc: Global, token: &Lexeme) -> Result<Name, Memory>
    ensures { IfOk result (λ n. n ≡ infix_name token.now) }
{
    match token {
        Lexeme::Name(word) => word.text.copied(alloc),
        _ => Name::new(alloc, ","),
    }
}

// Whether the name and what stands directly behind it are one.
fn joins(word: &Word, token: &Lexeme) -> bool
    ensures { result ≡ joins word.now token.now }
{
    match token {
        Lexeme::Open(is_direct) => *is_direct,
        Lexeme::Integer(_, is_direct) => *is_direct && word.is_minus,
        _ => false,
    }
}

// Whether an operator before the token stands for itself.
fn ends(token: &Lexeme) -> bool
    ensures { result ≡ ends token.now }
{
    matches!(
        token,
        Lexeme::Close | Lexeme::CloseList | Lexeme::CloseCurly | Lexeme::Bar | Lexeme::Comma
    )
}

#[tactic(auto, unfolding(crate::specs::Readings::is_operator))]
fn is_operator(ops: &Ops, name: &Name) -> bool
    ensures { result ≡ is_operator (λ f. row f ops.now.before) (λ f. row f ops.now.between) name.now }
{
    ops.prefix(name.as_str()).is_some() || ops.infix(name.as_str()).is_some()
}

// Whether a name before the token is an atom.
fn stands_alone(ops: &Ops, name: &Name, token: &Lexeme) -> bool
    ensures { result ≡ stands_alone (λ f. row f ops.now.before) (λ f. row f ops.now.between) name.now token.now }
{
    !is_operator(ops, name) || ends(token)
}

// The name of one character.
fn letter(alloc: Global, character: char) -> Result<Name, Memory>
    ensures { IfOk result (λ n. n ≡ encode_utf8 character) }
{
    let mut text = String::new(alloc);
    text.push(character)?;
    Name::new(alloc, text.as_str())
}

fn one_more(count: u32) -> Result<u32, Memory>
    ensures { IfOk result (λ n. n ≡ count + 1) }
{
    count.checked_add(1).ok_or(Memory)
}

impl Machine {
    pub(crate) fn new(alloc: Global) -> Machine
        ensures frames { result.frames.items ≡ [] }
        ensures nodes { result.nodes.items ≡ [] }
    {
        Machine {
            frames: Vec::new(alloc),
            nodes: Vec::new(alloc),
        }
    }

    // The greatest priority that the innermost place allows.
    fn most(&self) -> u32
        ensures { result ≡ stack.most (reverse self.now.frames.items) }
    {
        match self.frames.last() {
            Some(frame) => most_at(frame),
            None => 1200,
        }
    }

    // Opens a bracket.
    fn open(&mut self, bracket: Bracket) -> Result<Now, Memory>
        ensures { IfOk result (λ now. kept now self.new.frames.items self.new.nodes.items ≡ (Now.Wants, Frame.Bracket bracket ∷ reverse self.old.frames.items, self.old.nodes.items)) }
    {
        self.frames.push(Frame::Bracket(bracket))?;
        Ok(Now::Wants)
    }

    // Puts an infix operator behind the operand.
    fn shift(&mut self, alloc: Global, token: &Lexeme, op: Op) -> Result<Now, Memory>
        ensures { IfOk result (λ now. kept now self.new.frames.items self.new.nodes.items ≡ (Now.Wants, Frame.Infix (infix_name token.now) op ∷ reverse self.old.frames.items, self.old.nodes.items)) }
    {
        let name = infix_name(alloc, token)?;
        self.frames.push(Frame::Infix(name, op))?;
        Ok(Now::Wants)
    }

    // Puts a node behind those that were read, which makes an operand of priority 0.
    fn put(&mut self, node: Node) -> Result<Now, Memory>
        ensures { IfOk result (λ now. kept now self.new.frames.items self.new.nodes.items ≡ (Now.Has 0, reverse self.old.frames.items, self.old.nodes.items ++ node ∷ [])) }
    {
        self.nodes.push(node)?;
        Ok(Now::Has(0))
    }

    // Puts so many list cells behind.
    fn put_cells(&mut self, alloc: Global, count: usize) -> Result<Now, Memory>
        ensures { IfOk result (λ now. kept now self.new.frames.items self.new.nodes.items ≡ (Now.Has 0, reverse self.old.frames.items, self.old.nodes.items ++ replicate count cell)) }
    {
        let dot = Name::new(alloc, ".")?;
        for _ in 0..count {
            self.nodes.push(Node::Comp(dot.copied(alloc)?, 2))?;
        }
        Ok(Now::Has(0))
    }

    // Puts these characters as atoms.
    fn put_letters(&mut self, alloc: Global, text: &[char]) -> Result<(), Memory>
        ensures nodes { OnOk result (self.new.nodes.items ≡ self.old.nodes.items ++ map letter_node text.now) }
        ensures frames { OnOk result (self.new.frames.items ≡ self.old.frames.items) }
    {
        for character in text {
            self.nodes.push(Node::Atom(letter(alloc, *character)?))?;
        }
        Ok(())
    }

    // Puts the list of these characters as atoms.
    fn put_text(&mut self, alloc: Global, text: &List<char>) -> Result<Now, Memory>
        ensures { IfOk result (λ now. kept now self.new.frames.items self.new.nodes.items ≡ (Now.Has 0, reverse self.old.frames.items, ((self.old.nodes.items ++ map letter_node text.now) ++ Node.Atom nil ∷ []) ++ replicate (length text.now) cell)) }
    {
        self.put_letters(alloc, text.as_slice())?;
        self.nodes.push(Node::Atom(Name::new(alloc, "[]")?))?;
        self.put_cells(alloc, text.len())
    }

    // A token in the place of an operand.
    fn begins(&mut self, alloc: Global, token: &Lexeme) -> Result<Now, Memory>
        ensures { IfOk result (λ now. kept now self.new.frames.items self.new.nodes.items ≡ stack.begins token.now (reverse self.old.frames.items) self.old.nodes.items) }
    {
        match token {
            Lexeme::Name(word) => Ok(Now::Named(word.copied(alloc)?)),
            Lexeme::Integer(magnitude, _) => {
                if *magnitude < 1 << 127 {
                    self.put(Node::Int(*magnitude as i128))
                } else {
                    Ok(Now::TooLarge)
                }
            }
            Lexeme::Variable(number) => self.put(Node::Var(*number)),
            Lexeme::Text(text) => self.put_text(alloc, text),
            Lexeme::Open(_) => self.open(Bracket::Round),
            Lexeme::OpenList => self.open(Bracket::List(0)),
            Lexeme::OpenCurly => self.open(Bracket::Curly),
            _ => Ok(Now::Stuck),
        }
    }

    // A token that belongs to the name before it: digits or a bracket.
    fn joined(&mut self, token: &Lexeme, word: Word) -> Result<Now, Memory>
        ensures { IfOk result (λ now. kept now self.new.frames.items self.new.nodes.items ≡ stack.joined token.now word (reverse self.old.frames.items) self.old.nodes.items) }
    {
        let Lexeme::Integer(magnitude, _) = token else {
            return self.open(Bracket::Call(word.text, 0));
        };
        if *magnitude < 1 << 127 {
            self.put(Node::Int(0 - *magnitude as i128))
        } else if *magnitude == 1 << 127 {
            self.put(Node::Int(i128::MIN))
        } else {
            Ok(Now::TooLarge)
        }
    }

    // A token behind the last element of a bracket.
    fn closed(&mut self, alloc: Global, token: &Lexeme, bracket: Bracket) -> Result<Now, Memory>
        ensures { IfOk result (λ now. kept now self.new.frames.items self.new.nodes.items ≡ stack.closed token.now bracket (reverse self.old.frames.items) self.old.nodes.items) }
    {
        match (bracket, token) {
            (Bracket::Round, Lexeme::Close) => Ok(Now::Has(0)),
            (Bracket::Curly, Lexeme::CloseCurly) => self.put(Node::Comp(
                Name::new(alloc, "{}")?,
                1,
            )),
            (Bracket::List(count), Lexeme::CloseList) => {
                self.nodes.push(Node::Atom(Name::new(alloc, "[]")?))?;
                self.put_cells(alloc, one_more(count)? as usize)
            }
            (Bracket::List(count), Lexeme::Comma) => self.open(Bracket::List(one_more(count)?)),
            (Bracket::List(count), Lexeme::Bar) => self.open(Bracket::Tail(one_more(count)?)),
            (Bracket::Tail(count), Lexeme::CloseList) => self.put_cells(alloc, count as usize),
            (Bracket::Call(name, count), Lexeme::Close) => self.put(Node::Comp(
                name,
                one_more(count)?,
            )),
            (Bracket::Call(name, count), Lexeme::Comma) => self.open(Bracket::Call(
                name,
                one_more(count)?,
            )),
            _ => Ok(Now::Stuck),
        }
    }

    // A token behind an operand of this priority: an infix operator goes on with the innermost operand whose place allows it;
    // all else closes operators up to the innermost bracket.
    fn behind(
        &mut self,
        alloc: Global,
        token: &Lexeme,
        row: Option<Op>,
        priority: u32,
    ) -> Result<Now, Memory>
        ensures { IfOk result (λ now. kept now self.new.frames.items self.new.nodes.items ≡ stack.behind token.now row (reverse self.old.frames.items) self.old.nodes.items priority) }
    {
        let mut left = priority;
        while let Some(frame) = self.frames.pop() {
            if let Some(op) = going_on(most_at(&frame), left, row) {
                self.frames.push(frame)?;
                return self.shift(alloc, token, op);
            }
            match frame {
                Frame::Prefix(name, op) => {
                    self.nodes.push(Node::Comp(name, 1))?;
                    left = op.priority;
                }
                Frame::Infix(name, op) => {
                    self.nodes.push(Node::Comp(name, 2))?;
                    left = op.priority;
                }
                Frame::Bracket(bracket) => return self.closed(alloc, token, bracket),
            }
        }
        match going_on(1200, left, row) {
            Some(op) => self.shift(alloc, token, op),
            None => Ok(Now::Stuck),
        }
    }

    // A token behind a name in the place of an operand, by the first rule that fits.
    fn named(&mut self, alloc: Global, ops: &Ops, token: &Lexeme, word: Word) -> Result<Now, Memory>
        ensures { IfOk result (λ now. kept now self.new.frames.items self.new.nodes.items ≡ stack.named (λ f. row f ops.now.before) (λ f. row f ops.now.between) token.now word (reverse self.old.frames.items) self.old.nodes.items) }
    {
        if joins(&word, token) {
            return self.joined(token, word);
        }
        if stands_alone(ops, &word.text, token) {
            self.nodes.push(Node::Atom(word.text))?;
            return self.behind(alloc, token, infix_row(ops, token), 0);
        }
        let Some(op) = ops.prefix(word.text.as_str()) else {
            return Ok(Now::Stuck);
        };
        if op.priority > self.most() {
            return Ok(Now::Stuck);
        }
        self.frames.push(Frame::Prefix(word.text, op))?;
        self.begins(alloc, token)
    }

    // Closes the operators that wait for their operand. False where a bracket is still open.
    fn finished(&mut self) -> Result<bool, Memory>
        ensures { IfOk result (λ ends. stack.finished (reverse self.old.frames.items) self.old.nodes.items ≡ (if ends then Some self.new.nodes.items else None)) }
    {
        while let Some(frame) = self.frames.pop() {
            match frame {
                Frame::Prefix(name, _) => self.nodes.push(Node::Comp(name, 1))?,
                Frame::Infix(name, _) => self.nodes.push(Node::Comp(name, 2))?,
                Frame::Bracket(_bracket) => return Ok(false),
            }
        }
        Ok(true)
    }

    /// Whether the tokens may end behind what the last one left; the nodes are then those of the whole term.
    pub(crate) fn finish(&mut self, now: Now) -> Result<bool, Memory>
        ensures { IfOk result (λ ends. stack.finish (now, reverse self.old.frames.items, self.old.nodes.items) ≡ (if ends then Some self.new.nodes.items else None)) }
    {
        match now {
            Now::Has(_) => self.finished(),
            Now::Named(word) => {
                self.nodes.push(Node::Atom(word.text))?;
                self.finished()
            }
            Now::Wants | Now::Stuck | Now::TooLarge => Ok(false),
        }
    }

    /// Takes the next token, behind what the last one left.
    pub(crate) fn step(
        &mut self,
        alloc: Global,
        ops: &Ops,
        token: &Lexeme,
        now: Now,
    ) -> Result<Now, Memory>
        ensures { IfOk result (λ next. kept next self.new.frames.items self.new.nodes.items ≡ stack.step (λ f. row f ops.now.before) (λ f. row f ops.now.between) token.now (now, reverse self.old.frames.items, self.old.nodes.items)) }
    {
        match now {
            Now::Wants => self.begins(alloc, token),
            Now::Named(word) => self.named(alloc, ops, token, word),
            Now::Has(priority) => self.behind(alloc, token, infix_row(ops, token), priority),
            fault => Ok(fault),
        }
    }
}
