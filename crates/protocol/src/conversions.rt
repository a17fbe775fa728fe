// What numbers stand for, and what one error is as another.
ghost use Rattle.std.specs.Prelude.{◌≡◌, Ok, Err};
ghost use Rattle.protocol.specs.Constants.{abort_number};
ghost use Rattle.protocol.specs.DictionaryImage.{readable};
ghost use Rattle.protocol.specs.declared.CommandError.TheVariants.{Undecodable};
ghost use Rattle.protocol.specs.declared.Refusal.TheVariants.{Lent, Sequence};
ghost use Rattle.protocol.specs.Coding.{refusal_number};
ghost use Rattle.protocol.specs.SequenceHeader.{receive_mark, receive_mark_of, send_mark, send_mark_of};
ghost use Rattle.protocol.specs.Command.{segmentation_number, segmentation_of, id_byte, id_of};

use crate::{
    AbortCode, BufferTooShort, CommandError, CommandId, InvalidEnumValue, LookupError, Misfit,
    ReceiveConnState, Refusal, Segmentation, SendConnState,
};

// The receive mark of a number from 0 to 3, and its number.
// (A cast goes from a variant to its number and not back, so this and all that read a number below say each variant; one function for the three of four variants would be handed the four, and these are all that they are. Two bits of a byte hold the number, and each byte has a variant, so From and no TryFrom.)
impl From<u8> for ReceiveConnState {
    ghost from_gives = { λ n m. m ≡ receive_mark_of n };

    #[tactic(auto, unfolding(crate::specs::SequenceHeader::receive_mark_of, picks::specs::Pick::pick))]
    fn from(value: u8) -> Self {
        match value {
            0 => ReceiveConnState::NoConnection,
            1 => ReceiveConnState::Initialization,
            2 => ReceiveConnState::ConnectionValid,
            _ => ReceiveConnState::ErrorResponse,
        }
    }
}

impl From<ReceiveConnState> for u8 {
    ghost from_gives = { λ m n. n ≡ receive_mark m };

    fn from(receive: ReceiveConnState) -> u8 {
        receive as u8
    }
}

// The send mark of a number from 0 to 3, and its number.
impl From<u8> for SendConnState {
    ghost from_gives = { λ n m. m ≡ send_mark_of n };

    #[tactic(auto, unfolding(crate::specs::SequenceHeader::send_mark_of, picks::specs::Pick::pick))]
    fn from(value: u8) -> Self {
        match value {
            0 => SendConnState::NoConnection,
            1 => SendConnState::Initialization,
            2 => SendConnState::ConnectionValid,
            _ => SendConnState::ConnectionValidAckRequest,
        }
    }
}

impl From<SendConnState> for u8 {
    ghost from_gives = { λ m n. n ≡ send_mark m };

    fn from(send: SendConnState) -> u8 {
        send as u8
    }
}

// The segmentation of a number from 0 to 3, and its number.
impl From<u8> for Segmentation {
    ghost from_gives = { λ n s. s ≡ segmentation_of n };

    #[tactic(auto, unfolding(crate::specs::Command::segmentation_of, picks::specs::Pick::pick))]
    fn from(value: u8) -> Self {
        match value {
            0 => Segmentation::Expedited,
            1 => Segmentation::Initiate,
            2 => Segmentation::Segment,
            _ => Segmentation::Complete,
        }
    }
}

impl From<Segmentation> for u8 {
    ghost from_gives = { λ s n. n ≡ segmentation_number s };

    fn from(segmentation: Segmentation) -> u8 {
        segmentation as u8
    }
}

// The id of a byte, and its byte.
impl TryFrom<u8> for CommandId {
    type Error = InvalidEnumValue;

    ghost try_from_gives = { λ b r. r ≡ id_of b };

    #[tactic(auto, unfolding(crate::specs::Command::id_of, crate::specs::Command::id_among, crate::specs::Command::known_ids, picks::specs::Pick::pick))]
    fn try_from(value: u8) -> Result<Self, InvalidEnumValue> {
        match value {
            0x00 => Ok(CommandId::Nil),
            0x01 => Ok(CommandId::WriteByIndex),
            0x02 => Ok(CommandId::ReadByIndex),
            0x03 => Ok(CommandId::WriteAllByIndex),
            0x04 => Ok(CommandId::ReadAllByIndex),
            0x05 => Ok(CommandId::WriteByName),
            0x06 => Ok(CommandId::ReadByName),
            0x20 => Ok(CommandId::FileWrite),
            0x21 => Ok(CommandId::FileRead),
            0x31 => Ok(CommandId::WriteMultipleParamByIndex),
            0x32 => Ok(CommandId::ReadMultipleParamByIndex),
            0x40 => Ok(CommandId::Abort),
            0x70 => Ok(CommandId::MaxSegmentSize),
            _ => Err(InvalidEnumValue),
        }
    }
}

impl From<CommandId> for u8 {
    ghost from_gives = { λ i n. n ≡ id_byte i };

    fn from(id: CommandId) -> u8 {
        id as u8
    }
}

// An abort code's number on the wire.
impl From<AbortCode> for u32 {
    ghost from_gives = { λ c n. n ≡ abort_number c };

    fn from(code: AbortCode) -> u32 {
        code as u32
    }
}

// A refusal's number.
impl From<Refusal> for u8 {
    ghost from_gives = { λ x n. n ≡ refusal_number x };

    fn from(refusal: Refusal) -> u8 {
        refusal as u8
    }
}

// A byte that is no id makes a command undecodable.
impl From<InvalidEnumValue> for CommandError {
    ghost from_gives = { λ _ e. e ≡ Undecodable };

    fn from(_error: InvalidEnumValue) -> Self {
        CommandError::Undecodable
    }
}

// A buffer that is too short for an answer is refused as what is lent.
impl From<BufferTooShort> for Refusal {
    ghost from_gives = { λ _ x. x ≡ Lent };

    fn from(_error: BufferTooShort) -> Self {
        Refusal::Lent
    }
}

// A frame that does not fit is refused by its number.
impl From<Misfit> for Refusal {
    ghost from_gives = { λ _ x. x ≡ Sequence };

    fn from(_error: Misfit) -> Self {
        Refusal::Sequence
    }
}

// What is missing is told by its abort code.
// (A LookupError has no number of its own to cast: what it is on the wire is a variant of AbortCode.)
impl From<LookupError> for AbortCode {
    ghost from_gives = { λ e c. readable (Err e) ≡ Err c };

    fn from(error: LookupError) -> Self {
        match error {
            LookupError::NoObject => AbortCode::NoObject,
            LookupError::NoSubIndex => AbortCode::NoSubIndex,
        }
    }
}
