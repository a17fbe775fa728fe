// The types that definitions and code share. Types and variants have the Rust's names; a field is one word, with the Rust's name beside it where it differs.
#![tactic(auto)]

mod conversions;

// The most payload bytes of an answer: what a piece of an upload has.
pub const MAX_EXPEDITED_PAYLOAD: u32 = 1452;

// The bytes of a record's own share of the area: the longest value of a transfer.
pub const SHARE: u32 = 8192;

// The last clock that is not refused.
pub const CLOCK_MAX: u64 = 0x7FFFFFFFFFFFFFFF;

// The area's length.
pub const AREA: usize = 65536;

// The shortest answer buffer, and the longest request.
pub const ANSWER_MIN: usize = 1468;

pub const REQUEST_MAX: usize = 1500;

// Receive marks (rcon) of the sequence header.
#[derive(Clone, Copy, PartialEq, Eq)]
pub enum ReceiveConnState {
    NoConnection = 0,
    Initialization = 1,
    ConnectionValid = 2,
    ErrorResponse = 3,
}

// Send marks (scon) of the sequence header.
#[derive(Clone, Copy, PartialEq, Eq)]
pub enum SendConnState {
    NoConnection = 0,
    Initialization = 1,
    ConnectionValid = 2,
    ConnectionValidAckRequest = 3,
}

// The four-byte header of the sequence layer.
#[derive(Clone, Copy)]
pub struct SequenceLayerHeader {
    pub receive: u8, // receive_sequence_number
    pub rcon: ReceiveConnState, // receive_con
    pub send: u8, // send_sequence_number
    pub scon: SendConnState, // send_con
}

// The known command ids, each with its byte.
#[derive(Clone, Copy, PartialEq, Eq)]
pub enum CommandId {
    Nil = 0x00,
    WriteByIndex = 0x01,
    ReadByIndex = 0x02,
    WriteAllByIndex = 0x03,
    ReadAllByIndex = 0x04,
    WriteByName = 0x05,
    ReadByName = 0x06,
    FileWrite = 0x20,
    FileRead = 0x21,
    WriteMultipleParamByIndex = 0x31,
    ReadMultipleParamByIndex = 0x32,
    Abort = 0x40,
    MaxSegmentSize = 0x70,
}

// How a command belongs to a transfer.
#[derive(Clone, Copy, PartialEq, Eq)]
pub enum Segmentation {
    Expedited = 0,
    Initiate = 1,
    Segment = 2,
    Complete = 3,
}

// The fixed header of the command layer.
#[derive(Clone, Copy)]
pub struct CommandLayerHeader {
    pub transaction: u8, // transaction_id
    pub response: bool, // is_response
    pub aborted: bool, // is_aborted
    pub segmentation: Segmentation, // segmentation
    pub id: CommandId, // command_id
    pub size: u16, // segment_size
}

// A command but for its payload, which stands beside it as a part of the bytes that it was read from.
#[derive(Clone, Copy)]
pub struct SdoCommand {
    pub header: CommandLayerHeader,
    pub total: Option<u32>, // data_size: the total size that an Initiate carries
}

// Why nothing is coded: the buffer is too short.
#[derive(Clone, Copy, PartialEq, Eq)]
pub struct BufferTooShort;

// Why a byte is no command id.
#[derive(Clone, Copy, PartialEq, Eq)]
pub struct InvalidEnumValue;

// Why bytes are no command: BufferTooShort where the header is cut short, Undecodable for an unknown id or a payload cut short.
#[derive(Clone, Copy, PartialEq, Eq)]
pub enum CommandError {
    BufferTooShort,
    Undecodable,
}

// The abort codes that the server sends, each with its number on the wire.
#[derive(Clone, Copy, PartialEq, Eq)]
pub enum AbortCode {
    TimedOut = 0x05040000,
    InvalidCommand = 0x05040001,
    InvalidSequence = 0x05040003,
    OutOfMemory = 0x05040005,
    ReadOnly = 0x06010002,
    NoObject = 0x06020000,
    LengthMisfit = 0x06070010,
    LengthTooLow = 0x06070013,
    NoSubIndex = 0x06090011,
    GeneralError = 0x08000000,
}

// A client. A MAC address and an IP address are numbers, the first byte on the wire the most significant. Clients are ordered as they stand here, and by their fields in order.
#[derive(Clone, Copy, PartialEq, Eq, PartialOrd, Ord)]
pub enum SdoClientInfo {
    Asnd { node: u8, mac: u64 }, // source_node_id, source_mac
    Udp { ip: u32, port: u16 }, // source_ip, source_port
}

// A transfer, held in the state that runs it. Its bytes are in the client's share of the area.
// (`stored` is a flag, as document 01 has it: what it tells of is the bytes before offset. In a sound upload it goes with deadline and retries, and not in a download, so an Option of the three would be one type for one state.)
#[derive(Clone, Copy)]
pub struct SdoTransferState {
    pub transaction: u8, // transaction_id
    pub total: u32, // total_size
    pub offset: u32, // offset
    pub index: u16, // index
    pub sub: u8, // sub_index
    pub deadline: Option<u64>, // deadline_us: when it is due
    pub retries: u32, // retransmissions_left
    pub stored: bool, // last_sent_segment is there: the bytes before offset hold it
}

#[derive(Clone, Copy)]
pub enum SdoServerState {
    Closed,
    Opening,
    Established,
    SegmentedDownload(SdoTransferState),
    SegmentedUpload(SdoTransferState),
}

// A record of the connection table: the Rust's SdoSequenceHandler with its place in the map.
// (`used` is a flag, as document 01 has it: an unused record has all fields, fresh ones, and its share's number; as an Option of the other four it could not hold what an unsound table holds.)
#[derive(Clone, Copy)]
pub struct Connection {
    pub used: bool,
    pub client: SdoClientInfo, // client_info
    pub area: u8, // the number of its share of the area
    pub send: u8, // send_sequence_number
    pub receive: u8, // last_received_sequence_number
    pub state: SdoServerState,
}

// An entry of the dictionary image.
// (Index and sub stand apart here, in a transfer, a reading and an exercise, as in the Rust; a value is a place and a length of the image, since an entry is a value that lends nothing.)
#[derive(Clone, Copy)]
pub struct Entry {
    pub place: usize, // where its twelve bytes begin
    pub index: u16,
    pub sub: u8,
    pub flags: u8,
    pub body: u32,
    pub capacity: u16,
    pub length: u16,
}

// What is missing where an object is looked up.
#[derive(Clone, Copy, PartialEq, Eq)]
pub enum LookupError {
    NoObject,
    NoSubIndex,
}

// Where an answer's payload stands: nowhere, a part of the image, a part of the client's share of the area (place and length), or numbers that the answer's writer lays out.
// (Nothing is an empty payload and not a missing one, so it is no None; a part is a place and a length, since an action is a value that lends nothing; a code may be any number.)
#[derive(Clone, Copy)]
pub enum Body {
    Nothing,
    Image(u32, u16),
    Share(u32, u16),
    Code(u32),
    Sizes(u16, u16),
}

// What acting on a command leaves of the record, and the answer.
// (Command and body stand in an action, a piece and a response, as the Rust has a command and its payload in each.)
#[derive(Clone, Copy)]
pub struct Action {
    pub connection: Connection,
    pub command: SdoCommand,
    pub body: Body,
}

// What an upload's piece is: its command, and where its payload stands.
#[derive(Clone, Copy)]
pub struct Piece {
    pub command: SdoCommand,
    pub body: Body,
}

// What is left of a record, and what is said.
#[derive(Clone, Copy)]
pub struct Left<T> {
    pub connection: Connection,
    pub said: T,
}

// Why the sequence step says no header: the frame does not fit.
#[derive(Clone, Copy, PartialEq, Eq)]
pub struct Misfit;

// What the sequence step leaves: the record, with the answer's header so far where the frame fits.
pub type Step = Left<Result<SequenceLayerHeader, Misfit>>;

// An answer: its header, its command, and where its payload stands. The client it goes to stands in the record.
#[derive(Clone, Copy)]
pub struct SdoResponseData {
    pub header: SequenceLayerHeader, // seq_header
    pub command: SdoCommand,
    pub body: Body,
}

// Why a call is refused, each with document 01's number.
#[derive(Clone, Copy, PartialEq, Eq)]
pub enum Refusal {
    Lent = 1,
    Image = 2,
    Table = 3,
    Clock = 4,
    Short = 5,
    Long = 6,
    Full = 7,
    Sequence = 8,
    EmptyCommand = 9,
}

// What a request leaves of a record, and what is said to it: an answer, or a refusal.
pub type Handled = Left<Result<SdoResponseData, Refusal>>;

// An answer in the answer buffer: the client that it goes to, and its length.
#[derive(Clone, Copy)]
pub struct Answered {
    pub client: SdoClientInfo,
    pub length: usize,
}

// What a call returns with the row of eight by value: what it says, or why it is refused, and the row after it.
#[derive(Clone, Copy)]
pub struct Called<T> {
    pub outcome: Result<T, Refusal>,
    pub table: [Connection; 8],
}
