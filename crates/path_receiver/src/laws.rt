//! Laws over the definitions alone: the headline for whole lists of datagrams. Each is the contract
//! of a function that does nothing. What each call keeps of it says the call's own clause `holds`.
//!
//! - The same datagrams, the same frames and missing map: `same_frames` (`frames`, `missing_map`),
//!   `holds_same`; from a new receiver on, `any_list` of `receive`.
//! - What a receiver says of a sample is so, exactly: `each_cell` (`is`, `missing`).
//! - Merging two gives the receiver of all their datagrams: `holds` of `Receiver::merge`; in any
//!   tree: `both_lists`, `any_tree`.
//! - Each value is the sender's: `sender_cells` (`values`, `none_contested`).
//! - A picture of which each packet came by one path or the other is whole: `sender_frame`
//!   (`picture`), `whole_frame`.
ghost use Rattle.std.specs.Prelude.{◌≡◌, ◌≢◌, ◌↔◌, ◌⊎◌, ◌<◌, ℕ, Bool, List, ◌++◌, map, Some};
ghost use Rattle.std.specs.Prelude.{slice_get};
ghost use Rattle.std.specs.List.{flat_map};
ghost use Rattle.st_format.specs.declared.cell.Cell.TheVariants.{Contested, Value};
ghost use Rattle.st_format.specs.declared.format.Format.{Format};
ghost use Rattle.st_format.specs.Cell.{IsCellOf};
ghost use Rattle.st_format.specs.Member.{SameDatagrams};
ghost use Rattle.st_format.specs.Offer.{Offer, values_for};
ghost use Rattle.st_format.specs.Picture.{Values, timestamp_of, value_at};
ghost use Rattle.st_format.specs.Position.{Position, places};
ghost use Rattle.st_format.specs.Raster.{offers_in_all};
ghost use Rattle.st_format.specs.Device.{AreOctets};
ghost use Rattle.packet_plan.specs.declared.run.PacketRun.{PacketRun};
ghost use Rattle.packet_plan.specs.declared.stamp.Stamp.{Stamp};
ghost use Rattle.packet_plan.specs.Sender.{IsSenderList, Sender};
ghost use Rattle.packet_plan.specs.Sent.{IsSentPacket, IsSentPicture};
ghost use Rattle.path_receiver.specs.Frames.{HoldTheSame, Holds, IsPlaceOf, IsReceiver, MissTheSame};
ghost use Rattle.path_receiver.specs.Frames.{Misses, State, cell_in, frame_at, frames_of};
ghost use Rattle.path_receiver.specs.Frames.{joined_frames};
ghost use Rattle.path_receiver.specs.Grammar.{Datagram, IsFor};
ghost use Rattle.path_receiver.specs.Offers.{AreOffersOf, NoneCarries, offers};
ghost use Rattle.path_receiver.specs.Opening.{Opening};
ghost use Rattle.path_receiver.specs.Refused.{IsRefusedDatagram};
ghost use Rattle.path_receiver.specs.Sender.{AreAmong, AreAmongAt, IsOpenFor, IsSendersCell};
ghost use Rattle.path_receiver.specs.Sender.{IsSentAmong};
ghost use Rattle.path_receiver.specs.Sender.{offer_at, picture_raster, run_offers};
ghost use Rattle.path_receiver.specs.TookSent.{AreOnlyAt, Awaits, TookOfSender, TookPicture};
ghost use Rattle.path_receiver.specs.declared.answer.Refusal.{Refusal};

/// Receivers of one opening that hold the Frames of lists with the same datagrams, whatever the
/// paths, the order and the repeats, have the same frames and one missing map (SMPTE ST 2022-7).
pub fn same_frames()
    ensures frames { (left right : State) (xs ys : List (List ℕ)) →
        HoldTheSame left right xs ys → left.frames ≡ right.frames }
    ensures missing_map { (left right : State) (xs ys : List (List ℕ)) →
        HoldTheSame left right xs ys → MissTheSame left right }
{}

/// A receiver that holds the Frames of a list holds those of every list with the same datagrams.
pub fn holds_same()
    ensures { (receiver : State) (xs ys : List (List ℕ)) →
        Holds receiver xs → SameDatagrams xs ys → Holds receiver ys }
{}

/// Each cell of a receiver that holds the Frames of a list is what all its datagrams offer there:
/// missing, one value, or contested, as they say (`is`). It is missing exactly where none carries
/// it.
pub fn each_cell()
    ensures is { (receiver : State) (datagrams : List (List ℕ)) (timestamp : ℕ) (at : Position) →
        Holds receiver datagrams → IsPlaceOf timestamp at receiver.opening →
        IsCellOf (values_for (flat_map (offers receiver.opening) datagrams) timestamp at)
        (cell_in receiver timestamp at) }
    ensures missing { (receiver : State) (datagrams : List (List ℕ)) (timestamp : ℕ)
        (at : Position) →
        Holds receiver datagrams → IsPlaceOf timestamp at receiver.opening →
        Misses receiver timestamp at ↔ NoneCarries datagrams receiver.opening timestamp at }
{}

/// Frames depends on which datagrams there are, and on nothing else (SMPTE ST 2022-7).
pub fn same_datagrams()
    ensures { (o : Opening) (xs ys : List (List ℕ)) →
        SameDatagrams xs ys → frames_of o xs ≡ frames_of o ys }
{}

/// The frames of two lists of datagrams are the joins of their frames.
pub fn both_lists()
    ensures { (o : Opening) (xs ys : List (List ℕ)) →
        frames_of o (xs ++ ys) ≡ joined_frames (frames_of o xs) (frames_of o ys) }
{}

/// Merging receivers that were opened alike is commutative, associative and idempotent on their
/// frames: a stream can be received in pieces anywhere, and merged in any tree (SMPTE ST 2022-7).
pub fn any_tree()
    ensures commutative { (s t : State) →
        s.opening ≡ t.opening → IsReceiver s → IsReceiver t →
        joined_frames s.frames t.frames ≡ joined_frames t.frames s.frames }
    ensures associative { (s t u : State) →
        joined_frames (joined_frames s.frames t.frames) u.frames
        ≡ joined_frames s.frames (joined_frames t.frames u.frames) }
    ensures idempotent { (s : State) → joined_frames s.frames s.frames ≡ s.frames }
{}

/// What octets offer to a receiver is said by the grammar: one list has it (`exact`), that of their
/// segments at their timestamp where they are a datagram for it (`datagram`; RFC 4175, 4.3), else
/// none. That octets are below 256 is wanted: of 300 as the second a walk reads the marker set, and
/// the grammar has no such octet.
pub fn offered_by_grammar()
    ensures exact { (o : Opening) (octets : List ℕ) (offered : List Offer) →
        AreOctets octets → (offered ≡ offers o octets) ↔ AreOffersOf offered octets o }
    ensures datagram { (o : Opening) (octets : List ℕ) (d : Datagram) →
        IsFor octets o d → offers o octets ≡ offers_in_all o.format d.timestamp d.segments }
{}

/// Octets say one thing at most to a receiver.
pub fn one_reading()
    ensures { (o : Opening) (octets : List ℕ) (d e : Datagram) →
        IsFor octets o d → IsFor octets o e → d ≡ e }
{}

/// Octets are a datagram for a receiver, or refused; and never both.
pub fn datagram_or_refusal()
    ensures some { (o : Opening) (octets : List ℕ) → AreOctets octets →
        ((d : Datagram) × IsFor octets o d) ⊎ ((e : Refusal) × IsRefusedDatagram octets o e) }
    ensures apart { (o : Opening) (octets : List ℕ) (d : Datagram) (e : Refusal) →
        AreOctets octets → IsFor octets o d → IsRefusedDatagram octets o e → ⊥ }
{}

/// Octets are refused for one reason at most.
pub fn refused_once()
    ensures { (o : Opening) (octets : List ℕ) (d e : Refusal) →
        AreOctets octets → IsRefusedDatagram octets o d → IsRefusedDatagram octets o e → d ≡ e }
{}

/// What a sender's datagrams offer to a receiver that is opened for them: each one, for each of its
/// runs in turn, the picture's values at the run's positions, at the stamp's timestamp; and all of
/// a picture's, by any raster plan, its value at each position, in raster order, once (RFC 4175,
/// 4.3; SMPTE ST 2110-20, packets).
pub fn offered_by_sent()
    ensures datagram { (o : Opening) (p : Values) (stamp : Stamp) (i : ℕ) (is_last : Bool)
        (runs : List PacketRun) (octets : List ℕ) →
        IsOpenFor o p.format stamp.payload_type stamp.ssrc →
        IsSentPacket octets p stamp i is_last runs →
        offers o octets ≡ flat_map (run_offers p stamp.timestamp) runs }
    ensures picture { (o : Opening) (p : Values) (stamp : Stamp) (size : ℕ)
        (packets : List (List PacketRun)) (datagrams : List (List ℕ)) →
        IsOpenFor o p.format stamp.payload_type stamp.ssrc →
        IsSentPicture datagrams p stamp size packets →
        flat_map (offers o) datagrams ≡ map (offer_at p stamp.timestamp) (places p.format) }
{}

/// Where a receiver took all datagrams of a picture, by any raster plan, by one path or the other,
/// and every other one offers nothing at the picture's timestamp (`others`), its frame is the
/// picture with nothing missing (SMPTE ST 2022-7). So it is where every datagram for it of that
/// timestamp is one of the picture's (`grammar`).
pub fn whole_frame()
    ensures others { (receiver : State) (p : Values) (stamp : Stamp)
        (took : TookPicture receiver p stamp) →
        AreAmongAt took.taken took.sent receiver.opening stamp.timestamp →
        frame_at receiver.opening.window receiver.frames stamp.timestamp ≡ Some (picture_raster p) }
    ensures grammar { (receiver : State) (p : Values) (stamp : Stamp)
        (took : TookPicture receiver p stamp) →
        AreOnlyAt took.taken took.sent receiver.opening stamp.timestamp →
        frame_at receiver.opening.window receiver.frames stamp.timestamp ≡ Some (picture_raster p) }
{}

/// The pictures of a sender's list have different timestamps: 10,000 pictures of a rate of at least
/// one a second span less than 2^32 ticks of the 90 kHz clock, and each is at least 300 ticks later
/// than the one before.
pub fn timestamps_differ()
    ensures { (f : Format) (base j k : ℕ) → j < 10000 → k < 10000 →
        timestamp_of f base j ≡ timestamp_of f base k → j ≡ k }
{}

/// Each picture of a sender's list is sent by it: its datagrams by some raster plan are among the
/// list's.
pub fn pictures_sent()
    ensures { (s : Sender) (first : ℕ) (pictures : List Values) (datagrams : List (List ℕ))
        (k : ℕ) (p : Values) →
        IsSenderList datagrams s first pictures → slice_get pictures k ≡ Some p →
        IsSentAmong p s k datagrams }
{}

/// Where every datagram that a receiver took is of one sender's list, each cell of its frames is
/// missing or the value there of the sender's picture of that timestamp. So none is contested, and
/// a value at picture k's timestamp is picture k's, whatever was lost, repeated or came out of
/// order.
pub fn sender_cells()
    ensures cells { (receiver : State) (s : Sender) (pictures : List Values) →
        TookOfSender receiver s pictures → (timestamp : ℕ) (at : Position) →
        IsSendersCell (cell_in receiver timestamp at) s pictures timestamp at }
    ensures none_contested { (receiver : State) (s : Sender) (pictures : List Values) →
        TookOfSender receiver s pictures → (timestamp : ℕ) (at : Position) →
        cell_in receiver timestamp at ≢ Contested }
    ensures values { (receiver : State) (s : Sender) (pictures : List Values) →
        TookOfSender receiver s pictures →
        (k : ℕ) (p : Values) (at : Position) (v : ℕ) → slice_get pictures k ≡ Some p →
        cell_in receiver (timestamp_of s.format s.base k) at ≡ Value v → v ≡ value_at p at }
{}

/// Where every datagram that a receiver took is of one sender's list, and all of a picture that it
/// awaits, by any raster plan, are among them (`picture`), the frame at the picture's timestamp is
/// the picture with nothing missing. So it is where the whole list arrived (`all`).
pub fn sender_frame()
    ensures picture { (receiver : State) (s : Sender) (pictures : List Values) (k : ℕ) (p : Values)
        (took : TookOfSender receiver s pictures) →
        Awaits receiver s pictures k p → IsSentAmong p s k took.taken →
        frame_at receiver.opening.window receiver.frames (timestamp_of s.format s.base k)
        ≡ Some (picture_raster p) }
    ensures all { (receiver : State) (s : Sender) (pictures : List Values) (k : ℕ) (p : Values)
        (took : TookOfSender receiver s pictures) →
        Awaits receiver s pictures k p → AreAmong took.sent took.taken →
        frame_at receiver.opening.window receiver.frames (timestamp_of s.format s.base k)
        ≡ Some (picture_raster p) }
{}
