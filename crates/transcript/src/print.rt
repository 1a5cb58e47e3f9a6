ghost use Rattle.std.specs.Prelude.{◌≡◌, ◌+◌, ◌<◌, ◌≤◌, ◌^◌, ◌++◌, length, codes};
ghost use Rattle.nvm_model.specs.Text.{field, last_field, status_text, outcome_text, digest_text, bit, line_text, IsLine, IsEventOf, IsStatus, IsOutcome, IsDigest, HasForm};

use crate::{Line, LineBuf, Outcome};
use mig_base::{LaneNo, Span};
use nvm_values::Status;

/// Makes `out` the one text of the line, with its line feed. It is a line's form where no digest stands beside `Differs`.
pub fn print_line(line: &Line, out: &mut LineBuf)
    ensures text { out.new ≡ line_text line.now }
    ensures form { HasForm line.now → IsLine line.now }
{
    out.clear();
    match *line {
        Line::Title => out.push(b"nvmigrate transcript 1\n"),
        Line::Ready => out.push(b"ready\n"),
        Line::Act { lane, n } => print_pair(b"act ", u32::from(lane.get()), n, out),
        Line::Reap {
            lane,
            cid,
            status,
            head,
            phase,
        } => {
            print_start(b"reap ", lane, cid, out);
            print_completion(status, head, phase, out)
        }
        Line::Fetch {
            lane,
            cid,
            status,
            pieces,
        } => {
            print_start(b"fetch ", lane, cid, out);
            print_check(status, pieces, out)
        }
        Line::Piece {
            lane,
            cid,
            first,
            count,
            outcome,
            digest,
        } => {
            print_start(b"piece ", lane, cid, out);
            print_piece(Span { first, count }, outcome, out);
            print_digest(digest, out)
        }
        Line::Post { lane, cid, status } => {
            print_start(b"post ", lane, cid, out);
            print_status(status, out)
        }
        Line::Migrate => out.push(b"migrate\n"),
        Line::Restart => out.push(b"restart\n"),
        Line::Round { owed, pages } => print_pair(b"round ", owed, pages, out),
        Line::Suspend => out.push(b"suspend\n"),
        Line::Pause { blocks, pages } => print_pair(b"pause ", blocks, pages, out),
        Line::ResumeTo => out.push(b"resume to\n"),
        Line::GiveUp => out.push(b"give up\n"),
        Line::End => out.push(b"end\n"),
    }
}

fn print_pair(word: &[u8], a: u32, b: u32, out: &mut LineBuf)
    requires { length out.old + length word.now ≤ 10 }
    ensures { out.new ≡ out.old ++ word.now ++ field a ++ last_field b }
{
    out.push(word);
    out.push_field(a);
    out.push_last_field(b);
}

fn print_start(word: &[u8], lane: LaneNo, cid: u16, out: &mut LineBuf)
    requires { length out.old + length word.now ≤ 10 }
    ensures text { out.new ≡ out.old ++ word.now ++ field lane ++ field cid }
    ensures short { length out.new ≤ 32 }
    ensures form { IsEventOf lane cid }
{
    out.push(word);
    out.push_field(u32::from(lane.get()));
    out.push_field(u32::from(cid));
}

fn print_completion(status: Status, head: u32, phase: bool, out: &mut LineBuf)
    requires { length out.old ≤ 32 }
    ensures text { out.new ≡ out.old ++ status_text status ++ codes " " ++ field head ++ last_field (bit phase) }
    ensures form { IsStatus status × (head < 2 ^ 32) }
{
    push_status(status, out);
    out.push(b" ");
    out.push_field(head);
    out.push_last_field(u32::from(phase));
}

fn print_check(status: Status, pieces: u32, out: &mut LineBuf)
    requires { length out.old ≤ 32 }
    ensures text { out.new ≡ out.old ++ status_text status ++ codes " " ++ last_field pieces }
    ensures form { IsStatus status × (pieces < 2 ^ 32) }
{
    push_status(status, out);
    out.push(b" ");
    out.push_last_field(pieces);
}

fn print_status(status: Status, out: &mut LineBuf)
    requires { length out.old ≤ 32 }
    ensures text { out.new ≡ out.old ++ status_text status ++ codes "\n" }
    ensures form { IsStatus status }
{
    push_status(status, out);
    out.push(b"\n");
}

fn print_piece(span: Span, outcome: Outcome, out: &mut LineBuf)
    requires { length out.old ≤ 32 }
    ensures text { out.new ≡ out.old ++ field span.first ++ field span.count ++ outcome_text outcome }
    ensures short { length out.new ≤ 80 }
    ensures form { (span.first < 2 ^ 32) × (span.count < 2 ^ 32) × IsOutcome outcome }
{
    out.push_field(span.first);
    out.push_field(span.count);
    print_outcome(outcome, out);
}

fn print_outcome(outcome: Outcome, out: &mut LineBuf)
    requires { length out.old ≤ 60 }
    ensures text { out.new ≡ out.old ++ outcome_text outcome }
    ensures short { length out.new ≤ length out.old + 18 }
    ensures form { IsOutcome outcome }
{
    match outcome {
        Outcome::Done => out.push(b"ok"),
        Outcome::Faulted { at } => {
            out.push(b"fault ");
            out.push_number(at)
        }
        Outcome::Differs { at } => {
            out.push(b"differs ");
            out.push_number(at)
        }
    }
}

fn print_digest(digest: Option<[u8; 32]>, out: &mut LineBuf)
    requires { length out.old ≤ 80 }
    ensures text { out.new ≡ out.old ++ digest_text digest }
    ensures form { IsDigest digest }
{
    match digest {
        None => out.push(b"\n"),
        Some(bytes) => {
            out.push(b" ");
            out.push_hex(&bytes);
            out.push(b"\n")
        }
    }
}

/// A status: its type, a space, and its code.
fn push_status(status: Status, out: &mut LineBuf)
    requires { length out.old + 13 ≤ 192 }
    ensures text { out.new ≡ out.old ++ status_text status }
    ensures short { length out.new ≤ length out.old + 13 }
    ensures form { IsStatus status }
{
    out.push_field(u32::from(status.sct));
    out.push_hex(&[status.sc]);
}
