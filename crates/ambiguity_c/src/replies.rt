// The answers of the entries, told in numbers: an arm for each case of specs/Replies.antt.
ghost use Rattle.std.specs.Prelude.{◌≡◌};
ghost use Rattle.ambiguity_c.specs.Replies.{verdict_reply, move_reply, record_reply, no_record, step_reply, check_reply, search_reply, read_reply, write_reply, report_reply, read_back_reply, room_reply, length_reply, part_reply, trees_reply, trees_room_reply, draft_reply, draft_counts_reply, draft_table_reply, plan_reply};

use super::{
    CheckReply, DraftCountsReply, DraftReply, DraftTableReply, LengthReply, MoveReply, PartReply,
    PlanReply, ReadBackReply, ReadReply, ReportReply, RoomReply, SearchReply, StepReply,
    TableReply, TreesReply, TreesRoomReply, WriteReply,
};
use ambiguity::{
    CheckVerdict, DraftAnswer, DraftCounts, Move, Place, ReadBack, Reported, SearchRoom,
    SearchVerdict, Step, StepAnswer, TablePlace, TableVerdict, TextLength, TextRead, TextWritten,
    TreesFound, TreesRoom,
};
use channels::PlanRead;

pub fn table_told(verdict: TableVerdict, states: usize) -> TableReply
    ensures { result ≡ verdict_reply verdict states }
{
    match verdict {
        TableVerdict::Passed => TableReply {
            cause: 0,
            at: 0,
            states: states as u64,
        },
        TableVerdict::Refused(cause, at) => TableReply {
            cause: u8::from(cause) as u64,
            at: at as u64,
            states: 0,
        },
    }
}

pub fn check_told(verdict: CheckVerdict) -> CheckReply
    ensures { result ≡ check_reply verdict }
{
    match verdict {
        CheckVerdict::Accepted => CheckReply { cause: 0, at: 0 },
        CheckVerdict::Refused(cause, at) => CheckReply {
            cause: u8::from(cause) as u64,
            at: at as u64,
        },
    }
}

fn move_told(side: Move) -> MoveReply
    ensures { result ≡ move_reply side }
{
    match side {
        Move::Still => MoveReply {
            moved: 0,
            number: 0,
        },
        Move::Opening(rule) => MoveReply {
            moved: 1,
            number: rule as u64,
        },
        Move::Closing(rule) => MoveReply {
            moved: 2,
            number: rule as u64,
        },
        Move::Symbol(code) => MoveReply {
            moved: 3,
            number: code as u64,
        },
    }
}

fn record_told(step: Step) -> StepReply
    ensures { result ≡ record_reply step }
{
    let on_left = step.on_left;
    let on_right = step.on_right;
    let left_told = move_told(on_left);
    let right_told = move_told(on_right);
    StepReply {
        cause: 0,
        at: 0,
        kind: 1,
        layer: step.layer as u64,
        left: step.left as u64,
        right: step.right as u64,
        on_left: left_told,
        on_right: right_told,
    }
}

fn no_record(cause: u64, at: u64, kind: u64) -> StepReply
    ensures { result ≡ no_record cause at kind }
{
    StepReply {
        cause: cause,
        at: at,
        kind: kind,
        layer: 0,
        left: 0,
        right: 0,
        on_left: MoveReply {
            moved: 0,
            number: 0,
        },
        on_right: MoveReply {
            moved: 0,
            number: 0,
        },
    }
}

pub fn step_told(answer: StepAnswer) -> StepReply
    ensures { result ≡ step_reply answer }
{
    match answer {
        StepAnswer::Record(step) => record_told(step),
        StepAnswer::NoMore => no_record(0, 0, 2),
        StepAnswer::Refused(cause, at) => no_record(u8::from(cause) as u64, at as u64, 0),
    }
}

pub fn search_told(answer: SearchVerdict) -> SearchReply
    ensures { result ≡ search_reply answer }
{
    match answer {
        SearchVerdict::Unambiguous(size, looked) => SearchReply {
            cause: 0,
            at: 0,
            verdict: 1,
            count: size as u64,
            looked: looked as u64,
        },
        SearchVerdict::Potential(entries, looked) => SearchReply {
            cause: 0,
            at: 0,
            verdict: 2,
            count: entries as u64,
            looked: looked as u64,
        },
        SearchVerdict::Refused(cause, at) => SearchReply {
            cause: u8::from(cause) as u64,
            at: at as u64,
            verdict: 0,
            count: 0,
            looked: 0,
        },
    }
}

pub fn read_told(answer: TextRead) -> ReadReply
    ensures { result ≡ read_reply answer }
{
    match answer {
        TextRead::Read {
            terminals,
            nonterminals,
            entries,
            states,
        } => ReadReply {
            cause: 0,
            at: 0,
            terminals: terminals as u64,
            nonterminals: nonterminals as u64,
            entries: entries as u64,
            states: states as u64,
        },
        TextRead::Refused(cause, at) => ReadReply {
            cause: u8::from(cause) as u64,
            at: at as u64,
            terminals: 0,
            nonterminals: 0,
            entries: 0,
            states: 0,
        },
    }
}

pub fn write_told(answer: TextWritten) -> WriteReply
    ensures { result ≡ write_reply answer }
{
    match answer {
        TextWritten::Written(length) => WriteReply {
            cause: 0,
            at: 0,
            length: length as u64,
        },
        TextWritten::Refused(cause, at) => WriteReply {
            cause: u8::from(cause) as u64,
            at: at as u64,
            length: 0,
        },
    }
}

pub fn room_told(answer: SearchRoom) -> RoomReply
    ensures { result ≡ room_reply answer }
{
    match answer {
        SearchRoom::Room {
            states,
            certificate,
            entries,
            moves,
        } => RoomReply {
            cause: 0,
            at: 0,
            states: states as u64,
            certificate: certificate as u64,
            entries: entries as u64,
            moves: moves as u64,
        },
        SearchRoom::Refused(cause, at) => RoomReply {
            cause: u8::from(cause) as u64,
            at: at as u64,
            states: 0,
            certificate: 0,
            entries: 0,
            moves: 0,
        },
    }
}

pub fn length_told(answer: TextLength) -> LengthReply
    ensures { result ≡ length_reply answer }
{
    match answer {
        TextLength::Bytes(length) => LengthReply {
            cause: 0,
            at: 0,
            length: length as u64,
        },
        TextLength::Refused(cause, at) => LengthReply {
            cause: u8::from(cause) as u64,
            at: at as u64,
            length: 0,
        },
    }
}

pub fn report_told(answer: Reported) -> ReportReply
    ensures { result ≡ report_reply answer }
{
    match answer {
        Reported::Written(length) => ReportReply {
            cause: 0,
            at: 0,
            length: length as u64,
        },
        Reported::Refused(cause, at) => ReportReply {
            cause: u8::from(cause) as u64,
            at: at as u64,
            length: 0,
        },
    }
}

pub fn back_told(answer: ReadBack) -> ReadBackReply
    ensures { result ≡ read_back_reply answer }
{
    match answer {
        ReadBack::Read { left, right } => ReadBackReply {
            cause: 0,
            at: 0,
            part: 0,
            left: left as u64,
            right: right as u64,
        },
        ReadBack::GrammarRefused(cause, at) => ReadBackReply {
            cause: u8::from(cause) as u64,
            at: at as u64,
            part: 1,
            left: 0,
            right: 0,
        },
        ReadBack::Refused(cause, at) => ReadBackReply {
            cause: u8::from(cause) as u64,
            at: at as u64,
            part: 2,
            left: 0,
            right: 0,
        },
    }
}

pub fn part_told(place: Place) -> PartReply
    ensures { result ≡ part_reply place }
{
    match place {
        Place::Robot(start, length) => PartReply {
            text: 1,
            start: start as u64,
            length: length as u64,
        },
        Place::Module(start, length) => PartReply {
            text: 2,
            start: start as u64,
            length: length as u64,
        },
        Place::Neither => PartReply {
            text: 0,
            start: 0,
            length: 0,
        },
    }
}

pub fn trees_told(answer: TreesFound) -> TreesReply
    ensures { result ≡ trees_reply answer }
{
    match answer {
        TreesFound::Nothing => TreesReply {
            cause: 0,
            at: 0,
            found: 1,
            count: 0,
        },
        TreesFound::One(rules) => TreesReply {
            cause: 0,
            at: 0,
            found: 2,
            count: rules as u64,
        },
        TreesFound::Several => TreesReply {
            cause: 0,
            at: 0,
            found: 3,
            count: 0,
        },
        TreesFound::Refused(cause, at) => TreesReply {
            cause: u8::from(cause) as u64,
            at: at as u64,
            found: 0,
            count: 0,
        },
    }
}

pub fn trees_room_told(answer: TreesRoom) -> TreesRoomReply
    ensures { result ≡ trees_room_reply answer }
{
    match answer {
        TreesRoom::Entries(entries) => TreesRoomReply {
            cause: 0,
            at: 0,
            entries: entries as u64,
        },
        TreesRoom::Refused(cause, at) => TreesRoomReply {
            cause: u8::from(cause) as u64,
            at: at as u64,
            entries: 0,
        },
    }
}

pub fn draft_told(answer: DraftAnswer) -> DraftReply
    ensures { result ≡ draft_reply answer }
{
    match answer {
        DraftAnswer::Done => DraftReply { cause: 0, at: 0 },
        DraftAnswer::Refused(cause, at) => DraftReply {
            cause: u8::from(cause) as u64,
            at: at as u64,
        },
    }
}

pub fn draft_counts_told(answer: DraftCounts) -> DraftCountsReply
    ensures { result ≡ draft_counts_reply answer }
{
    match answer {
        DraftCounts::Counts {
            terminals,
            nonterminals,
            rules,
            entries,
            states,
        } => DraftCountsReply {
            cause: 0,
            at: 0,
            terminals: terminals as u64,
            nonterminals: nonterminals as u64,
            rules: rules as u64,
            entries: entries as u64,
            states: states as u64,
        },
        DraftCounts::Refused(cause, at) => DraftCountsReply {
            cause: u8::from(cause) as u64,
            at: at as u64,
            terminals: 0,
            nonterminals: 0,
            rules: 0,
            entries: 0,
            states: 0,
        },
    }
}

pub fn draft_table_told(answer: TablePlace) -> DraftTableReply
    ensures { result ≡ draft_table_reply answer }
{
    match answer {
        TablePlace::Stands { start, entries } => DraftTableReply {
            cause: 0,
            at: 0,
            start: start as u64,
            entries: entries as u64,
        },
        TablePlace::Refused(cause, at) => DraftTableReply {
            cause: u8::from(cause) as u64,
            at: at as u64,
            start: 0,
            entries: 0,
        },
    }
}

pub fn plan_told(answer: PlanRead) -> PlanReply
    ensures { result ≡ plan_reply answer }
{
    match answer {
        PlanRead::Nothing => PlanReply {
            cause: 0,
            at: 0,
            found: 1,
            count: 0,
        },
        PlanRead::Plan(rules) => PlanReply {
            cause: 0,
            at: 0,
            found: 2,
            count: rules as u64,
        },
        PlanRead::Refused(cause, at) => PlanReply {
            cause: u8::from(cause) as u64,
            at: at as u64,
            found: 0,
            count: 0,
        },
    }
}
