//! The forms of lines.

ghost use Rattle.std.specs.Prelude.{◌≡◌, ◌≢◌, [], Some, None, IfOk, IfErr, OnErr, OnOk};
ghost use Rattle.pg_script_lines.specs.declared.keyword.NodeKeyword.TheVariants.{Join, Leave, Closest};
ghost use Rattle.pg_text.specs.declared.fault.TextFault.TheVariants.{BadText};
ghost use Rattle.pg_script_lines.specs.Words.{words_left};
ghost use Rattle.pg_script_lines.specs.Forms.{atom_in, term_in, pid_in, pids_in, number_in, number_or};
ghost use Rattle.pg_script_lines.specs.Forms.{keyword_in, made_in, node_line, has_line, settle_line};
ghost use Rattle.pg_script_lines.specs.Forms.{pair_form, pair_line, node_form, at_line, line_in, line_of};

use crate::keyword::{Keyword, NodeKeyword, PairKeyword, keyword_of};
use crate::line::{Line, NodeForm, PairForm};
use crate::words::Words;
use pg_step::Command;
use pg_term::{Atom, Items, Pid, Term};
use pg_text::{TextFault, read_atom, read_number, read_pid, read_term};
use std::alloc::Global;

/// How many bytes a `put` or a `pull` moves at most where its line names no number.
const MAX_MOVED: u32 = 65_536;

/// How many rounds a `settle` makes at most, and where its line names no number.
pub const MAX_ROUNDS: u32 = 1_000_000;

/// Reads a line that is not empty and no comment: what `line_of` of `specs/Forms.antt` reads.
///
/// Errors: `BadText`, where it has no form; else `OutOfMemory`.
///
/// Cost: one walk over the line; memory for what it names.
pub fn read_line(alloc: Global, text: &str) -> Result<Line, TextFault>
    ensures ok { IfOk result (λ line. line_of text.now ≡ Some line) }
    ensures err { IfErr result (λ fault. fault ≡ BadText → line_of text.now ≡ None) }
{
    let mut words = LineWords {
        alloc,
        words: Words::new(text),
    };
    match words.line() {
        Ok(line) => match words.end() {
            Ok(()) => Ok(line),
            Err(fault) => {
                // By a call: its forms are not written out here.
                drop(line);
                Err(fault)
            }
        },
        Err(fault) => Err(fault),
    }
}

/// The words of a line that are left to be read.
#[derive(Drop)]
struct LineWords<'a> {
    alloc: Global,
    words: Words<'a>,
}

impl LineWords<'_> {
    /// All words of the line's form.
    fn line(&mut self) -> Result<Line, TextFault>
        ensures ok { IfOk result (λ read. line_in (words_left self.old.words) ≡ Some (read, words_left self.new.words)) }
        ensures err { IfErr result (λ fault. fault ≡ BadText → line_in (words_left self.old.words) ≡ None) }
    {
        match self.keyword()? {
            Keyword::Ring => Ok(Line::Ring(self.number()?)),
            Keyword::Node => self.node_line(),
            Keyword::Has => self.has_line(),
            Keyword::Settle => self.settle_line(),
            Keyword::History => Ok(Line::History(self.term()?)),
            Keyword::Pair(keyword) => self.pair_line(keyword),
            Keyword::At(keyword) => self.at_line(keyword),
        }
    }

    fn keyword(&mut self) -> Result<Keyword, TextFault>
        ensures ok { IfOk result (λ read. keyword_in (words_left self.old.words) ≡ Some (read, words_left self.new.words)) }
        ensures err { IfErr result (λ fault. fault ≡ BadText → keyword_in (words_left self.old.words) ≡ None) }
    {
        match self.words.next() {
            Some(word) => keyword_of(word).ok_or(TextFault::BadText),
            None => Err(TextFault::BadText),
        }
    }

    fn node_line(&mut self) -> Result<Line, TextFault>
        ensures ok { IfOk result (λ read. node_line (words_left self.old.words) ≡ Some (read, words_left self.new.words)) }
        ensures err { IfErr result (λ fault. fault ≡ BadText → node_line (words_left self.old.words) ≡ None) }
    {
        let name = self.atom()?;
        let made = self.made()?;
        Ok(Line::Node { name, made })
    }

    /// How many processes were made: `made N`, or nothing.
    fn made(&mut self) -> Result<u32, TextFault>
        ensures ok { IfOk result (λ read. made_in (words_left self.old.words) ≡ Some (read, words_left self.new.words)) }
        ensures err { IfErr result (λ fault. fault ≡ BadText → made_in (words_left self.old.words) ≡ None) }
    {
        match self.words.next() {
            None => Ok(0),
            Some("made") => self.number(),
            Some(_) => Err(TextFault::BadText),
        }
    }

    fn has_line(&mut self) -> Result<Line, TextFault>
        ensures ok { IfOk result (λ read. has_line (words_left self.old.words) ≡ Some (read, words_left self.new.words)) }
        ensures err { IfErr result (λ fault. fault ≡ BadText → has_line (words_left self.old.words) ≡ None) }
    {
        let node = self.atom()?;
        let group = self.term()?;
        match self.pids() {
            Ok(members) => Ok(Line::Has {
                node,
                group,
                members,
            }),
            Err(fault) => {
                drop(group);
                Err(fault)
            }
        }
    }

    fn settle_line(&mut self) -> Result<Line, TextFault>
        ensures ok { IfOk result (λ read. settle_line (words_left self.old.words) ≡ Some (read, words_left self.new.words)) }
        ensures err { IfErr result (λ fault. fault ≡ BadText → settle_line (words_left self.old.words) ≡ None) }
    {
        let rounds = self.number_or(MAX_ROUNDS)?;
        if rounds > MAX_ROUNDS {
            return Err(TextFault::BadText);
        }
        Ok(Line::Settle(rounds))
    }

    fn pair_line(&mut self, keyword: PairKeyword) -> Result<Line, TextFault>
        ensures ok { IfOk result (λ read. pair_line keyword (words_left self.old.words) ≡ Some (read, words_left self.new.words)) }
        ensures err { IfErr result (λ fault. fault ≡ BadText → pair_line keyword (words_left self.old.words) ≡ None) }
    {
        let first = self.atom()?;
        let second = self.atom()?;
        let form = self.pair_form(keyword)?;
        Ok(Line::Pair {
            first,
            second,
            form,
        })
    }

    fn pair_form(&mut self, keyword: PairKeyword) -> Result<PairForm, TextFault>
        ensures ok { IfOk result (λ read. pair_form keyword (words_left self.old.words) ≡ Some (read, words_left self.new.words)) }
        ensures err { IfErr result (λ fault. fault ≡ BadText → pair_form keyword (words_left self.old.words) ≡ None) }
    {
        match keyword {
            PairKeyword::Put => Ok(PairForm::Put(self.number_or(MAX_MOVED)?)),
            PairKeyword::Pull => Ok(PairForm::Pull(self.number_or(MAX_MOVED)?)),
            PairKeyword::Take => Ok(PairForm::Take),
            PairKeyword::Outbox => Ok(PairForm::Outbox),
            PairKeyword::SeeLoss => Ok(PairForm::SeeLoss),
        }
    }

    fn at_line(&mut self, keyword: NodeKeyword) -> Result<Line, TextFault>
        ensures ok { IfOk result (λ read. at_line keyword (words_left self.old.words) ≡ Some (read, words_left self.new.words)) }
        ensures err { IfErr result (λ fault. fault ≡ BadText → at_line keyword (words_left self.old.words) ≡ None) }
    {
        let node = self.atom()?;
        let form = self.node_form(keyword)?;
        Ok(Line::At { node, form })
    }

    fn node_form(&mut self, keyword: NodeKeyword) -> Result<NodeForm, TextFault>
        ensures ok { IfOk result (λ read. node_form keyword (words_left self.old.words) ≡ Some (read, words_left self.new.words)) }
        ensures err { IfErr result (λ fault. fault ≡ BadText → node_form keyword (words_left self.old.words) ≡ None) }
    {
        match keyword {
            NodeKeyword::Create => Ok(NodeForm::Command(Command::Create(self.term()?))),
            NodeKeyword::Delete => Ok(NodeForm::Command(Command::Delete(self.term()?))),
            NodeKeyword::Join => self.join_form(),
            NodeKeyword::Leave => self.leave_form(),
            NodeKeyword::Make => Ok(NodeForm::Command(Command::Make)),
            NodeKeyword::End => Ok(NodeForm::Command(Command::Finish(self.pid()?))),
            NodeKeyword::Members => Ok(NodeForm::Command(Command::Members(self.term()?))),
            NodeKeyword::Local => Ok(NodeForm::Command(Command::LocalMembers(self.term()?))),
            NodeKeyword::Groups => Ok(NodeForm::Command(Command::WhichGroups)),
            NodeKeyword::Closest => self.closest_form(),
            NodeKeyword::Retry => Ok(NodeForm::Retry(self.number()?)),
            NodeKeyword::Lock => Ok(NodeForm::Lock(self.term()?)),
            NodeKeyword::Lose => Ok(NodeForm::Lose),
        }
    }

    /// `TERM PID` of a join.
    fn join_form(&mut self) -> Result<NodeForm, TextFault>
        ensures ok { IfOk result (λ read. node_form Join (words_left self.old.words) ≡ Some (read, words_left self.new.words)) }
        ensures err { IfErr result (λ fault. fault ≡ BadText → node_form Join (words_left self.old.words) ≡ None) }
    {
        let group = self.term()?;
        match self.pid() {
            Ok(pid) => Ok(NodeForm::Command(Command::Join(group, pid))),
            Err(fault) => {
                drop(group);
                Err(fault)
            }
        }
    }

    /// `TERM PID` of a leave.
    fn leave_form(&mut self) -> Result<NodeForm, TextFault>
        ensures ok { IfOk result (λ read. node_form Leave (words_left self.old.words) ≡ Some (read, words_left self.new.words)) }
        ensures err { IfErr result (λ fault. fault ≡ BadText → node_form Leave (words_left self.old.words) ≡ None) }
    {
        let group = self.term()?;
        match self.pid() {
            Ok(pid) => Ok(NodeForm::Command(Command::Leave(group, pid))),
            Err(fault) => {
                drop(group);
                Err(fault)
            }
        }
    }

    /// `TERM N` of a choice.
    fn closest_form(&mut self) -> Result<NodeForm, TextFault>
        ensures ok { IfOk result (λ read. node_form Closest (words_left self.old.words) ≡ Some (read, words_left self.new.words)) }
        ensures err { IfErr result (λ fault. fault ≡ BadText → node_form Closest (words_left self.old.words) ≡ None) }
    {
        let group = self.term()?;
        match self.number() {
            Ok(number) => Ok(NodeForm::Command(Command::Closest(group, number))),
            Err(fault) => {
                drop(group);
                Err(fault)
            }
        }
    }

    fn atom(&mut self) -> Result<Atom, TextFault>
        ensures ok { IfOk result (λ read. atom_in (words_left self.old.words) ≡ Some (read, words_left self.new.words)) }
        ensures err { IfErr result (λ fault. fault ≡ BadText → atom_in (words_left self.old.words) ≡ None) }
    {
        match self.words.next() {
            Some(word) => read_atom(self.alloc, word),
            None => Err(TextFault::BadText),
        }
    }

    fn term(&mut self) -> Result<Term, TextFault>
        ensures ok { IfOk result (λ read. term_in (words_left self.old.words) ≡ Some (read, words_left self.new.words)) }
        ensures err { IfErr result (λ fault. fault ≡ BadText → term_in (words_left self.old.words) ≡ None) }
    {
        match self.words.next() {
            Some(word) => read_term(self.alloc, word),
            None => Err(TextFault::BadText),
        }
    }

    fn pid(&mut self) -> Result<Pid, TextFault>
        ensures ok { IfOk result (λ read. pid_in (words_left self.old.words) ≡ Some (read, words_left self.new.words)) }
        ensures err { IfErr result (λ fault. fault ≡ BadText → pid_in (words_left self.old.words) ≡ None) }
    {
        match self.words.next() {
            Some(word) => read_pid(self.alloc, word),
            None => Err(TextFault::BadText),
        }
    }

    /// The pids that follow, up to the end of the line.
    fn pids(&mut self) -> Result<Items<Pid>, TextFault>
        ensures ok { IfOk result (λ read. pids_in (words_left self.old.words) ≡ Some (read, words_left self.new.words)) }
        ensures err { IfErr result (λ fault. fault ≡ BadText → pids_in (words_left self.old.words) ≡ None) }
    {
        let mut pids = Vec::new(self.alloc);
        while let Some(word) = self.words.next() {
            pids.push(read_pid(self.alloc, word)?)?;
        }
        Ok(Items::from_vec(pids))
    }

    fn number(&mut self) -> Result<u32, TextFault>
        ensures ok { IfOk result (λ read. number_in (words_left self.old.words) ≡ Some (read, words_left self.new.words)) }
        ensures err { IfErr result (λ fault. fault ≡ BadText → number_in (words_left self.old.words) ≡ None) }
    {
        match self.words.next() {
            Some(word) => read_number(word),
            None => Err(TextFault::BadText),
        }
    }

    /// The number that ends the line, or this one where there is none.
    fn number_or(&mut self, default: u32) -> Result<u32, TextFault>
        ensures ok { IfOk result (λ read. number_or default (words_left self.old.words) ≡ Some (read, words_left self.new.words)) }
        ensures err { IfErr result (λ fault. fault ≡ BadText → number_or default (words_left self.old.words) ≡ None) }
    {
        match self.words.next() {
            Some(word) => read_number(word),
            None => Ok(default),
        }
    }

    fn end(&self) -> Result<(), TextFault>
        ensures ok { OnOk result (words_left self.now.words ≡ []) }
        ensures err { OnErr result (words_left self.now.words ≢ []) }
    {
        if self.words.is_over() {
            Ok(())
        } else {
            Err(TextFault::BadText)
        }
    }
}
