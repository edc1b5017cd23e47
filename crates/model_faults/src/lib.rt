// What is wrong with a record, in the place where it stands. The record is judged by few numbers and items, so that no model is copied for
// each.

#![tactic(auto)]

ghost use Rattle.std.specs.Prelude.{◌≡◌, true, cond};
ghost use Rattle.model_format.specs.Reading as reading;
ghost use Rattle.model_faults.specs.Causes as causes;
ghost use Rattle.model_faults.specs.Laws as laws;

use model_format::{
    ASSIGNMENT_RANK, ATOM_RANK, Assignment, Atom, Connection, Faults, HEAD_RANK, Head, INPUT_TAG,
    LOCAL_TAG, LONGEST_TIME, MAX_CONNECTIONS, MAX_MODES, MAX_SWITCHES, MAX_THREADS,
    MAX_TRANSITIONS, ModeTransition, OUTPUT_TAG, TRANSITION_RANK, Thread, Transition, critical_in,
};
use numbers::{bits, lcm_up_to};
use records::{Cause, LAST_CLOCK, Operand};

// Where a reader stands: the kind of the last record, 0 before the first, the head's numbers, and how many items there are of each kind.
#[derive(Clone, Copy)]
pub struct Stand {
    pub last: u8,
    pub modes: u8,
    pub initial: u8,
    pub threads: usize,
    pub inputs: usize,
    pub outputs: usize,
    pub locals: usize,
    pub connections: usize,
    pub switches: usize,
}

// What the items tell of a record that follows them: that the input port of a connection is connected, the hyperperiods of a mode
// transition.
#[derive(Clone, Copy)]
pub struct Found {
    pub connected: bool,
    pub h1: u64,
    pub h2: u64,
}

// A hyperperiod is no longer than the clock goes.
const LONGEST_HYPERPERIOD: u64 = LAST_CLOCK as u64;

// The behaviour states of a thread.
const MAX_STATES: u8 = 8;

// Atoms or assignments of a transition, which bytes count.
pub const MAX_EACH_BYTE: u8 = model_format::MAX_EACH as u8;

// How many there are of: what a mark says, kinds of connections, tags of operands, comparisons, operations.
const MARKS: u8 = 2;

const CONNECTION_KINDS: u8 = 2;

const OPERAND_TAGS: u8 = 3;

pub const COMPARISONS: u8 = 6;

pub const OPERATIONS: u8 = 3;

// The kind that one of kinds 01 to 08 may not fall below.
fn least_kind(last: u8) -> u8
    ensures { result ≡ laws.least_kind last }
{
    last.min(TRANSITION_RANK)
}

// A record of one kind may follow one of kind `last`.
pub fn in_order(last: u8, kind: u8) -> bool
    ensures { result ≡ reading.in_order last kind }
{
    match kind {
        HEAD_RANK => last == 0,
        ATOM_RANK => (last == TRANSITION_RANK) | (last == ATOM_RANK),
        ASSIGNMENT_RANK => TRANSITION_RANK <= last,
        _ => (0 < last) & (least_kind(last) <= kind),
    }
}

fn times_fit(thread: Thread) -> bool
    ensures { result ≡ reading.times_fit thread }
{
    (1 <= thread.deadline.0)
        & ((thread.deadline.0 <= thread.period.0)
            & ((thread.period.0 <= LONGEST_TIME)
                & ((1 <= thread.bcet.0)
                    & ((thread.bcet.0 <= thread.wcet.0) & (thread.wcet.0 <= LONGEST_TIME)))))
}

// A mask has 8 bits, so it fits where there are 8 modes or more.
fn mask_fits(stand: Stand, mask: u8) -> bool
    ensures { result ≡ reading.mask_fits (causes.bare stand) mask }
{
    MAX_MODES <= stand.modes || mask >> stand.modes == 0
}

// The item that a tag and a number name is there.
fn names_item(stand: Stand, tag: u8, number: usize) -> bool
    ensures { result ≡ reading.names_item (causes.bare stand) tag number }
{
    match tag {
        INPUT_TAG => number < stand.inputs,
        LOCAL_TAG => number < stand.locals,
        OUTPUT_TAG => number < stand.outputs,
        _ => true,
    }
}

// An operand's number as an item's. A negative one has bits that name nothing.
pub fn number_in(operand: Operand) -> usize
    ensures { result ≡ causes.number_in operand }
{
    bits(operand.value) as usize
}

pub fn operand_tag(operand: Operand) -> bool
    ensures { result ≡ reading.operand_tag operand }
{
    operand.tag < OPERAND_TAGS
}

fn operand_names(stand: Stand, operand: Operand) -> bool
    ensures { result ≡ reading.operand_names (causes.bare stand) operand }
{
    !operand_tag(operand) || names_item(stand, operand.tag, number_in(operand))
}

pub fn left_tag(atom: Atom) -> bool
    ensures { result ≡ reading.left_tag atom }
{
    (atom.tag == INPUT_TAG) | (atom.tag == LOCAL_TAG)
}

pub fn target_tag(assignment: Assignment) -> bool
    ensures { result ≡ reading.target_tag assignment }
{
    (assignment.tag == LOCAL_TAG) | (assignment.tag == OUTPUT_TAG)
}

// Where the tag is one that the place allows, the item is there.
fn allowed_names(allowed: bool, stand: Stand, tag: u8, number: u16) -> bool
    ensures { result ≡ cond allowed (reading.names_item (causes.bare stand) tag number) true }
{
    !allowed || names_item(stand, tag, usize::from(number))
}

// A hyperperiod with the period of a thread that is critical in both modes.
pub fn with_period(thread: Thread, old: u8, new: u8, hyperperiod: u64) -> u64
    ensures { result ≡ laws.with_period_of thread old new hyperperiod }
{
    if !critical_in(thread, old) {
        return hyperperiod;
    }
    if !critical_in(thread, new) {
        return hyperperiod;
    }
    lcm_up_to(LAST_CLOCK, hyperperiod, thread.period.0)
}

pub fn same_target(one: Assignment, other: Assignment) -> bool
    ensures { result ≡ causes.same_target one other }
{
    (one.tag == other.tag) & (one.number == other.number)
}

const NO_FAULTS: Faults = Faults {
    order: false,
    excess: false,
    names: false,
    times: false,
    ranges: false,
    owner: false,
    twice: false,
    hyperperiod: false,
};

// The first fault, in the order of the causes.
fn judged(faults: Faults) -> Cause
    ensures { result ≡ reading.judged faults }
{
    if faults.order {
        return Cause::WrongKind;
    }
    if faults.excess {
        return Cause::TooMany;
    }
    if faults.names {
        return Cause::NamesNothing;
    }
    if faults.times {
        return Cause::FaultyTime;
    }
    if faults.ranges {
        return Cause::WrongField;
    }
    if faults.owner {
        return Cause::OtherThread;
    }
    if faults.twice {
        return Cause::SetTwice;
    }
    if faults.hyperperiod {
        return Cause::LongHyperperiod;
    }
    Cause::None
}

// ---- the cause of each kind of record, where `order` says that its kind may not stand there
pub fn head_cause(order: bool, head: Head) -> Cause
    ensures { result ≡ reading.judged (reading.head_faults order head) }
{
    judged(Faults {
        order,
        names: head.modes <= head.initial,
        ranges: !((1 <= head.modes) & (head.modes <= MAX_MODES)),
        ..NO_FAULTS
    })
}

pub fn thread_cause(order: bool, stand: Stand, thread: Thread) -> Cause
    ensures { result ≡ reading.judged (reading.thread_faults order (causes.bare stand) thread) }
{
    judged(Faults {
        order,
        excess: MAX_THREADS <= stand.threads,
        times: !times_fit(thread),
        ranges: !(mask_fits(stand, thread.modes)
            & ((thread.critical < MARKS) & (thread.first < MAX_STATES))),
        ..NO_FAULTS
    })
}

// Of an input port, an output port or a local.
pub fn port_cause(order: bool, count: usize, limit: usize, stand: Stand, owner: u8) -> Cause
    ensures { result ≡ reading.judged (reading.port_faults order count limit (causes.bare stand) owner) }
{
    judged(Faults {
        order,
        excess: limit <= count,
        names: stand.threads <= usize::from(owner),
        ..NO_FAULTS
    })
}

pub fn connection_cause(order: bool, stand: Stand, found: Found, connection: Connection) -> Cause
    ensures { result ≡ reading.judged (causes.connection_faults_by order stand found connection) }
{
    let source = usize::from(connection.source);
    let target = usize::from(connection.target);
    judged(Faults {
        order,
        excess: MAX_CONNECTIONS <= stand.connections,
        names: !((source < stand.outputs) & (target < stand.inputs)),
        ranges: !((connection.kind < CONNECTION_KINDS) & mask_fits(stand, connection.modes)),
        twice: found.connected,
        ..NO_FAULTS
    })
}

pub fn switch_cause(order: bool, stand: Stand, found: Found, switch: ModeTransition) -> Cause
    ensures { result ≡ reading.judged (causes.switch_faults_by order stand found switch) }
{
    judged(Faults {
        order,
        excess: MAX_SWITCHES <= stand.switches,
        names: !((switch.from < stand.modes) & (switch.to < stand.modes)),
        hyperperiod: (LONGEST_HYPERPERIOD < found.h1) | (LONGEST_HYPERPERIOD < found.h2),
        ..NO_FAULTS
    })
}

pub fn transition_cause(
    order: bool,
    stand: Stand,
    transitions: usize,
    transition: Transition,
) -> Cause
    ensures { result ≡ reading.judged (causes.transition_faults_by order stand transitions transition) }
{
    judged(Faults {
        order,
        excess: MAX_TRANSITIONS <= transitions,
        names: stand.threads <= usize::from(transition.thread),
        ranges: !((transition.from < MAX_STATES) & (transition.to < MAX_STATES)),
        ..NO_FAULTS
    })
}

// With the transition that it belongs to, whose thread owns what it names where `owned` says so.
pub fn atom_cause(
    order: bool,
    stand: Stand,
    transition: Transition,
    owned: bool,
    atom: Atom,
) -> Cause
    ensures { result ≡ reading.judged (causes.atom_faults_by order stand transition owned atom) }
{
    let left = left_tag(atom);
    let left_names = allowed_names(left, stand, atom.tag, atom.number);
    let right_names = operand_names(stand, atom.right);
    judged(Faults {
        order,
        excess: MAX_EACH_BYTE <= transition.atoms,
        names: !(left_names & right_names),
        ranges: !((atom.op < COMPARISONS) & (left & operand_tag(atom.right))),
        owner: !owned,
        ..NO_FAULTS
    })
}

// `twice`: the transition has an assignment with this target.
pub fn assignment_cause(
    order: bool,
    stand: Stand,
    transition: Transition,
    owned: bool,
    twice: bool,
    assignment: Assignment,
) -> Cause
    ensures { result ≡ reading.judged (causes.assignment_faults_by order stand transition owned twice assignment) }
{
    let target = target_tag(assignment);
    let target_names = allowed_names(target, stand, assignment.tag, assignment.number);
    let names = operand_names(stand, assignment.first) & operand_names(stand, assignment.second);
    let tags = operand_tag(assignment.first) & operand_tag(assignment.second);
    judged(Faults {
        order,
        excess: MAX_EACH_BYTE <= transition.assignments,
        names: !(target_names & names),
        ranges: !(target & ((assignment.op < OPERATIONS) & tags)),
        owner: !owned,
        twice,
        ..NO_FAULTS
    })
}
