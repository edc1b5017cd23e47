// The variables of the table by the items that they belong to.

ghost use Rattle.std.specs.Prelude.{◌≡◌, ◌<◌};
ghost use Rattle.table_format.specs.Variables as variables;

// How many there are.
pub const VARIABLES: usize = 288;

// The variables that belong to no item, and the condition variable of an update that has no condition.
pub const NOW: u16 = 0;

pub const MODE: u16 = 1;

pub const PHASE: u16 = 2;

pub const PENDING: u16 = 3;

pub const ENTERED: u16 = 4;

pub const CPU: u16 = 5;

pub const NO_VARIABLE: u16 = 65535;

// How many belong to no item; and of each block, thread by thread, connection by connection, port by port, the first.
pub const CLOCK_VARIABLES: u16 = 6;

pub const ACTIVE: u16 = 16;

pub const STATE: u16 = 32;

pub const DISPATCH_TIME: u16 = 48;

pub const DUE: u16 = 64;

pub const END: u16 = 80;

pub const BEHAVIOR: u16 = 96;

pub const MISSED: u16 = 112;

pub const FLAG: u16 = 128;

pub const INPUT: u16 = 160;

pub const BUFFER: u16 = 192;

pub const OUTPUT: u16 = 224;

pub const LOCAL: u16 = 256;

// Of a thread.
pub fn active_var(thread: u8) -> u16
    ensures { result ≡ variables.active_var thread }
{
    ACTIVE + (thread as u16)
}

pub fn state_var(thread: u8) -> u16
    ensures { result ≡ variables.state_var thread }
{
    STATE + (thread as u16)
}

pub fn dispatch_var(thread: u8) -> u16
    ensures { result ≡ variables.dispatch_var thread }
{
    DISPATCH_TIME + (thread as u16)
}

pub fn due_var(thread: u8) -> u16
    ensures { result ≡ variables.due_var thread }
{
    DUE + (thread as u16)
}

pub fn end_var(thread: u8) -> u16
    ensures { result ≡ variables.end_var thread }
{
    END + (thread as u16)
}

pub fn behavior_var(thread: u8) -> u16
    ensures { result ≡ variables.behavior_var thread }
{
    BEHAVIOR + (thread as u16)
}

pub fn missed_var(thread: u8) -> u16
    ensures { result ≡ variables.missed_var thread }
{
    MISSED + (thread as u16)
}

// Of a connection.
pub fn flag_var(connection: u16) -> u16
    requires { connection < variables.connection_room }
    ensures { result ≡ variables.flag_var connection }
{
    FLAG + connection
}

// Of an input port, its buffer, an output port, a local.
pub fn input_var(port: u16) -> u16
    requires { port < variables.input_room }
    ensures { result ≡ variables.input_var port }
{
    INPUT + port
}

pub fn buffer_var(port: u16) -> u16
    requires { port < variables.input_room }
    ensures { result ≡ variables.buffer_var port }
{
    BUFFER + port
}

pub fn output_var(port: u16) -> u16
    requires { port < variables.output_room }
    ensures { result ≡ variables.output_var port }
{
    OUTPUT + port
}

pub fn local_var(local: u16) -> u16
    requires { local < variables.local_room }
    ensures { result ≡ variables.local_var local }
{
    LOCAL + local
}
