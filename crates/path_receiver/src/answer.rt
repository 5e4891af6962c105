//! What a receiver answers to a datagram.
ghost use Rattle.std.specs.Prelude.{◌≡◌};
ghost use Rattle.path_receiver.specs.declared.answer.Refusal.TheVariants.{Header, Payload};

use payload_header::PayloadFault;
use rtp_header::RtpFault;
use thiserror::Error;

/// What became of a datagram that was not refused.
#[derive(Clone, Copy, Debug, PartialEq, Eq)]
pub enum Taken {
    /// Its samples were joined to the frame of its timestamp. This is its packet number: 65536
    /// times the extended number of its payload plus the sequence number of its header (RFC 4175,
    /// 4.1 and 4.2).
    Kept(u32),
    /// Its timestamp isn't in the window, and nothing changed.
    Outside,
}

/// How many refusals there are.
pub const REFUSAL_COUNT: usize = 14;

/// Why a datagram was refused: the first reason, in this order. A number is part of texts and
/// files: a new refusal comes last.
#[derive(Clone, Copy, Debug, PartialEq, Eq, Error)]
pub enum Refusal {
    /// 1 to 4: the RTP header is at fault (RFC 3550, 5.1).
    #[error(transparent)]
    Header(RtpFault),
    /// 5: it has another payload type than the receiver.
    #[error("the payload type is another than the receiver's")]
    WrongPayloadType,
    /// 6: a source is pinned, and it has another.
    #[error("a source is pinned, and the datagram has another")]
    WrongSource,
    /// 7 to 14: the payload is at fault (RFC 4175, 4).
    #[error(transparent)]
    Payload(PayloadFault),
}

impl Refusal {
    ghost use Rattle.path_receiver.specs.Answers.{refusal_name, refusal_number};

    /// All, in the order of their numbers.
    pub const ALL: [Refusal; REFUSAL_COUNT] = [
        Refusal::Header(RtpFault::ShortHeader),
        Refusal::Header(RtpFault::BadVersion),
        Refusal::Header(RtpFault::ShortExtension),
        Refusal::Header(RtpFault::BadPadding),
        Refusal::WrongPayloadType,
        Refusal::WrongSource,
        Refusal::Payload(PayloadFault::ShortPayloadHeader),
        Refusal::Payload(PayloadFault::TooManySegments),
        Refusal::Payload(PayloadFault::SecondField),
        Refusal::Payload(PayloadFault::BadLength),
        Refusal::Payload(PayloadFault::BadOffset),
        Refusal::Payload(PayloadFault::RowOutside),
        Refusal::Payload(PayloadFault::ColumnsOutside),
        Refusal::Payload(PayloadFault::ShortData),
    ];

    /// The refusal's number, 1 to 14.
    pub fn number(self) -> u8
        ensures { result ≡ refusal_number self }
    {
        match self {
            Refusal::Header(fault) => fault.number(),
            Refusal::WrongPayloadType => 5,
            Refusal::WrongSource => 6,
            Refusal::Payload(fault) => 6 + fault.number(),
        }
    }

    /// Its bare name, as the texts of the program have it; of a header or a payload its fault's.
    pub fn name(self) -> &'static str
        ensures { result.now ≡ refusal_name self }
    {
        match self {
            Refusal::Header(fault) => fault.name(),
            Refusal::WrongPayloadType => "WrongPayloadType",
            Refusal::WrongSource => "WrongSource",
            Refusal::Payload(fault) => fault.name(),
        }
    }
}

impl From<RtpFault> for Refusal {
    ghost from_gives = { λ fault refusal. refusal ≡ Header fault };

    fn from(fault: RtpFault) -> Refusal {
        Refusal::Header(fault)
    }
}

impl From<PayloadFault> for Refusal {
    ghost from_gives = { λ fault refusal. refusal ≡ Payload fault };

    fn from(fault: PayloadFault) -> Refusal {
        Refusal::Payload(fault)
    }
}
