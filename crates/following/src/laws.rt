//! Laws over the definitions alone: the headline of streams, for whole lists of datagrams. Each is
//! the contract of a function that does nothing. That the calls of a follower are the steps of
//! `handed_out` say their own clauses (`answer` and `state` of `Follower::take`, `out` and `state`
//! of `Follower::next_frame`).
//!
//! - Every timestamp, in order, with all that came for it: `whole_stream` (`times`, `whole`).
//! - The same datagrams, the same frames: `any_order`.
//! - All of a sender's pictures, in order, with nothing missing: `sender_pictures`; where some
//!   datagrams were lost, what is there is the sender's: `sender_cells`.
//! - Where none was late or too far ahead, nothing was lost, also where frames went early:
//!   `none_lost`.
//! - The headline of two paths, early or as frames are due: where all that comes late is a repeat,
//!   `prompt_stream`, and all of a sender's pictures, `prompt_pictures`; which lists are so,
//!   `prompt_premises`.
//! - Whatever comes, strays and late ones too: what is handed out is of those that were neither
//!   late nor too far ahead, `kept_alone`, and each frame is of some datagrams, `each_frame`.
//! - A frame that goes early is complete: `early`.
//! - Turn by turn is as at once: `in_turns`.
//! - What is handed out rises, whatever comes: `rising`.
//! - Which window holds a stream of which datagrams came late: `needed_window`.
//! - Since when only late datagrams came, where a stream is to be followed anew: `lost_since`.
ghost use Rattle.std.specs.Prelude.{◌≡◌, ◌↔◌, ◌⊎◌, ◌++◌, ◌^◌, ◌<◌, ◌≤◌, ℕ, Bool, IsTrue, List};
ghost use Rattle.std.specs.Prelude.{None, Some};
ghost use Rattle.std.specs.Prelude.{false, map, true};
ghost use Rattle.st_format.specs.declared.cell.Cell.TheVariants.{Contested};
ghost use Rattle.st_format.specs.Position.{IsPosition, Position};
ghost use Rattle.st_format.specs.Raster.{cell_at};
ghost use Rattle.st_format.specs.Device.{AreOctets};
ghost use Rattle.std.specs.List.Sorted.{IsStrictlyIncreasing};
ghost use Rattle.st_format.specs.Member.{IsMember, SameMembers};
ghost use Rattle.path_receiver.specs.Opening.{AreDifferent, IsWindowSize, Opening};
ghost use Rattle.st_format.specs.Picture.{Values};
ghost use Rattle.packet_plan.specs.Sender.{Sender};
ghost use Rattle.following.specs.Pictures.{BroughtAll, BroughtSome, IsOfSome, IsSendersSample};
ghost use Rattle.following.specs.Pictures.{ShowsSender, pictures_from, timed_from, times_from};
ghost use Rattle.following.specs.Acts.{Act, AreNearby, NoneLost, handed_by, taken_of};
ghost use Rattle.following.specs.Serial.{ahead_of, wrapped};
ghost use Rattle.following.specs.Follower.{Following, opened};
ghost use Rattle.following.specs.Following.{Handed, RiseFrom, handed_out, stamps_of};
ghost use Rattle.following.specs.Times.{AreInHalf, AreInRound, AreInTime, AreOfTimes, AreSteady};
ghost use Rattle.following.specs.Times.{AreTimed, AreWithin, HasTime, IsOrderly, Timed, handed_at};
ghost use Rattle.following.specs.Times.{frame_of, handed_of, in_order, octets_of, times_of};
ghost use Rattle.following.specs.Need.{none_noted, noted_behind};
ghost use Rattle.following.specs.Prompt.{AreAgreed, FirstsInTime, FirstsRise, IsPrompt};
ghost use Rattle.following.specs.Restarts.{AreLostSince, Reply, lost_behind};
ghost use Rattle.following.specs.Turned.{answers_in, first_complete, handed_all, handed_early};
ghost use Rattle.following.specs.Turned.{handed_while, is_complete, kept_of, state_behind, turned};

/// What a follower hands out of a list of datagrams, from its opening to its end, where none comes
/// after as many newer timestamps as it has frames, and none is more ticks ahead of the newest than
/// it may be: for each time that any of them has, in rising
/// order, its timestamp and the Frames at it of all the list's datagrams of that time (`times`).
/// Where all times are within one round of the timestamps, these are the Frames at it of the whole
/// list (`whole`).
pub fn whole_stream()
    ensures times { (o : Opening) (size ahead : ℕ) (datagrams : List Timed) →
        IsWindowSize size → AreTimed o datagrams → IsOrderly size ahead (times_of o datagrams) →
        handed_out (opened o size ahead) (octets_of datagrams)
        ≡ map (handed_at o datagrams) (in_order (times_of o datagrams)) }
    ensures whole { (o : Opening) (size ahead base : ℕ) (datagrams : List Timed) →
        IsWindowSize size → AreTimed o datagrams → IsOrderly size ahead (times_of o datagrams) →
        AreInRound base (times_of o datagrams) →
        handed_out (opened o size ahead) (octets_of datagrams)
        ≡ map (handed_of o (octets_of datagrams)) (in_order (times_of o datagrams)) }
{}

/// Lists of the same datagrams, in any such orders and with any repeats, hand out the same (SMPTE
/// ST 2022-7).
pub fn any_order()
    ensures { (o : Opening) (size ahead : ℕ) (left right : List Timed) →
        IsWindowSize size → SameMembers left right → AreTimed o left →
        IsOrderly size ahead (times_of o left) → IsOrderly size ahead (times_of o right) →
        handed_out (opened o size ahead) (octets_of left)
        ≡ handed_out (opened o size ahead) (octets_of right) }
{}

/// Where all datagrams of a sender's list came, each by one path or the other or both, and no
/// others, none after as many newer timestamps as the follower has frames, and none too far ahead
/// (as of a sender that paused for longer), it hands out the sender's pictures, all, in order, each
/// with nothing missing (SMPTE ST 2022-7).
pub fn sender_pictures()
    ensures { (o : Opening) (size ahead : ℕ) (s : Sender) (pictures : List Values)
        (datagrams : List (List ℕ)) →
        IsWindowSize size → BroughtAll o s pictures datagrams →
        IsOrderly size ahead (times_from o s.base datagrams) →
        handed_out (opened o size ahead) datagrams ≡ pictures_from s 0 pictures }
{}

/// Where each datagram that came is of a sender's list, whatever was lost, each cell of each frame
/// that is handed out is missing or the sender's value there at the frame's timestamp.
pub fn sender_cells()
    ensures { (o : Opening) (size ahead : ℕ) (s : Sender) (pictures : List Values)
        (datagrams : List Timed) →
        IsWindowSize size → AreTimed o datagrams → IsOrderly size ahead (times_of o datagrams) →
        BroughtSome o s pictures (octets_of datagrams) → (h : Handed) →
        IsMember h (handed_out (opened o size ahead) (octets_of datagrams)) →
        ShowsSender h s pictures }
{}

/// Where no datagram was answered `Late` or `Far`, which the caller sees, and all are near what is
/// in and what went last, what was handed out, early or as it was due, is for each time of the
/// datagrams, in rising order, its timestamp and the Frames at it of all datagrams of that time. So
/// nothing that came was lost.
pub fn none_lost()
    ensures { (o : Opening) (size ahead : ℕ) (acts : List Act) →
        IsWindowSize size → AreTimed o (taken_of acts) →
        AreNearby size (times_of o (taken_of acts)) → NoneLost (opened o size ahead) acts →
        handed_by (opened o size ahead) acts
        ≡ map (handed_at o (taken_of acts)) (in_order (times_of o (taken_of acts))) }
{}

/// Where each datagram that comes after as many newer times as the follower has frames came before
/// too, as by the other path (SMPTE ST 2022-7), none is too far ahead, and all are near what is in
/// and what went last: what is handed out, and in at the end, is for each time, in rising order,
/// its timestamp and the Frames at it of all the list's datagrams of that time. So it is also where
/// complete frames go early, if each time first comes before a newer one's frame is complete, and
/// no two datagrams of a time give a sample different values: what comes of a frame that went is
/// late, and adds nothing.
pub fn prompt_stream()
    ensures { (eager : Bool) (o : Opening) (size ahead : ℕ) (datagrams : List Timed) →
        IsWindowSize size → AreTimed o datagrams → AreNearby size (times_of o datagrams) →
        IsPrompt eager o size ahead datagrams → (IsTrue eager → AreAgreed o datagrams) →
        handed_all eager (opened o size ahead) (octets_of datagrams)
        ≡ map (handed_at o datagrams) (in_order (times_of o datagrams)) }
{}

/// Where all datagrams of a sender's list came so, each by one path or the other or both, and no
/// others: what is handed out, and in at the end, early or as it is due, is the sender's pictures,
/// all, in order, each with nothing missing; however late the repeats come, and in whatever order.
pub fn prompt_pictures()
    ensures { (eager : Bool) (o : Opening) (size ahead : ℕ) (s : Sender) (pictures : List Values)
        (datagrams : List (List ℕ)) →
        IsWindowSize size → BroughtAll o s pictures datagrams →
        IsPrompt eager o size ahead (map (timed_from o s.base) datagrams) →
        handed_all eager (opened o size ahead) datagrams ≡ pictures_from s 0 pictures }
{}

/// Which streams are prompt. Each time first comes before a newer one's frame is complete where the
/// times rise as they first come (`rising`). Where no frame goes early each orderly list is
/// (`orderly`): so `whole_stream` is of those of which nothing comes late.
pub fn prompt_premises()
    ensures rising { (o : Opening) (datagrams : List Timed) →
        FirstsRise (times_of o datagrams) → FirstsInTime o datagrams }
    ensures orderly { (o : Opening) (size ahead : ℕ) (datagrams : List Timed) →
        IsOrderly size ahead (times_of o datagrams) → IsPrompt false o size ahead datagrams }
{}

/// Whatever comes, strays, late ones and repeats among it, and whether frames go early or not: what
/// is handed out, and in at the end, is for each time of those datagrams that were neither late nor
/// too far ahead, in rising order, its timestamp and the Frames at it of all of these of that time.
pub fn kept_alone()
    ensures { (eager : Bool) (o : Opening) (size ahead : ℕ) (datagrams : List Timed) →
        IsWindowSize size → AreTimed o (kept_of eager (opened o size ahead) datagrams) →
        AreNearby size (times_of o (kept_of eager (opened o size ahead) datagrams)) →
        handed_all eager (opened o size ahead) (octets_of datagrams)
        ≡ map (handed_at o (kept_of eager (opened o size ahead) datagrams))
        (in_order (times_of o (kept_of eager (opened o size ahead) datagrams))) }
{}

/// Whatever comes, in whatever order, and whether frames go early or not: each frame that is handed
/// out or in at the end is the Frames at its timestamp of some of the datagrams (`some`). Where
/// each of these is of a sender's list, each cell of it is missing or the sender's value there
/// (`cells`); so one of which nothing is missing is the sender's picture, sample by sample
/// (`complete`).
pub fn each_frame()
    ensures some { (eager : Bool) (o : Opening) (size ahead : ℕ) (datagrams : List (List ℕ))
        (h : Handed) → IsMember h (handed_all eager (opened o size ahead) datagrams) →
        IsOfSome o datagrams h }
    ensures cells { (eager : Bool) (o : Opening) (size ahead : ℕ) (s : Sender)
        (pictures : List Values) (datagrams : List (List ℕ)) (h : Handed) →
        BroughtSome o s pictures datagrams →
        IsMember h (handed_all eager (opened o size ahead) datagrams) →
        ShowsSender h s pictures }
    ensures complete { (eager : Bool) (o : Opening) (size ahead : ℕ) (s : Sender)
        (pictures : List Values) (datagrams : List (List ℕ)) (h : Handed) (at : Position) →
        BroughtSome o s pictures datagrams →
        IsMember h (handed_all eager (opened o size ahead) datagrams) →
        IsTrue (is_complete h.frame) → IsPosition at o.format →
        IsSendersSample (cell_at h.frame at) s pictures h.timestamp at }
{}

/// Each frame that goes early, before it is due, has nothing missing (`complete`), and behind a
/// turn no such frame is the oldest: all have gone, however many (`none_waits`). What comes of the
/// timestamp of one afterwards, and is late then, could add nothing: of more datagrams each cell is
/// as it is, or contested (`no_more`).
pub fn early()
    ensures complete { (eager : Bool) (s : Following) (h : Handed) →
        IsMember h (handed_early eager s) → IsTrue (is_complete h.frame) }
    ensures none_waits { (s : Following) (octets : List ℕ) →
        first_complete (turned true s octets).frames ≡ false }
    ensures no_more { (o : Opening) (before after : List (List ℕ)) (timestamp : ℕ)
        (at : Position) → IsTrue (is_complete (frame_of o before timestamp)) →
        IsPosition at o.format →
        (cell_at (frame_of o (before ++ after) timestamp) at
        ≡ cell_at (frame_of o before timestamp) at)
        ⊎ (cell_at (frame_of o (before ++ after) timestamp) at ≡ Contested) }
{}

/// What is handed out of a whole list, up to its end, is what is handed out turn by turn where no
/// frame goes early, and what is in at the end (`plain`). A list that is taken in two parts, as by
/// two calls of `follow`, is as one (`handed`, `state`, `answers`).
pub fn in_turns()
    ensures plain { (s : Following) (datagrams : List (List ℕ)) →
        handed_out s datagrams ≡ handed_all false s datagrams }
    ensures handed { (eager : Bool) (s : Following) (first rest : List (List ℕ)) →
        handed_while eager s (first ++ rest)
        ≡ handed_while eager s first ++ handed_while eager (state_behind eager s first) rest }
    ensures state { (eager : Bool) (s : Following) (first rest : List (List ℕ)) →
        state_behind eager s (first ++ rest)
        ≡ state_behind eager (state_behind eager s first) rest }
    ensures answers { (eager : Bool) (s : Following) (first rest : List (List ℕ)) →
        answers_in eager s (first ++ rest)
        ≡ answers_in eager s first ++ answers_in eager (state_behind eager s first) rest }
{}

/// The times of a list in order are its times, each once, the least first.
pub fn in_order_is()
    ensures members { (times : List ℕ) → SameMembers times (in_order times) }
    ensures rising { (times : List ℕ) → IsStrictlyIncreasing (in_order times) }
{}

/// What the premises on times say by the grammar of datagrams: which have a time (`members`), and
/// that it is their timestamp's (`timed`). Where all times are within half a round, all are near,
/// so that none comes too late is all that is asked (`half`); and so it is where each is less than
/// twelve minutes from the greatest before it, however long the stream (`steady`). Also where some
/// come too late, as repeats do, all are then near (`half_near`, `steady_near`).
pub fn premises()
    ensures members { (o : Opening) (datagrams : List Timed) →
        ((x : Timed) → IsMember x datagrams → AreOctets x.octets) → (u : ℕ) →
        IsMember u (times_of o datagrams) ↔ HasTime o datagrams u }
    ensures timed { (o : Opening) (datagrams : List Timed) →
        ((x : Timed) → IsMember x datagrams → AreOctets x.octets) →
        AreOfTimes o datagrams → AreTimed o datagrams }
    ensures half { (size ahead base : ℕ) (times : List ℕ) →
        AreInHalf base times → AreInTime size times → AreWithin ahead times →
        IsOrderly size ahead times }
    ensures steady { (size ahead : ℕ) (times : List ℕ) →
        IsWindowSize size → AreInTime size times → AreWithin ahead times → AreSteady times →
        IsOrderly size ahead times }
    ensures half_near { (size base : ℕ) (times : List ℕ) → AreInHalf base times →
        AreNearby size times }
    ensures steady_near { (size : ℕ) (times : List ℕ) → IsWindowSize size → AreSteady times →
        AreNearby size times }
{}

/// Whatever comes, each timestamp that is handed out is newer than the one before (`newer`), also
/// where frames go early (`early`); so none is handed out twice while all are within half a round
/// (`once`).
pub fn rising()
    ensures newer { (o : Opening) (size ahead : ℕ) (datagrams : List (List ℕ)) →
        RiseFrom None (stamps_of (handed_out (opened o size ahead) datagrams)) }
    ensures early { (eager : Bool) (o : Opening) (size ahead : ℕ) (datagrams : List (List ℕ)) →
        RiseFrom None (stamps_of (handed_all eager (opened o size ahead) datagrams)) }
    ensures once { (o : Opening) (size ahead base : ℕ) (datagrams : List (List ℕ)) →
        ((timestamp : ℕ) →
        IsMember timestamp (stamps_of (handed_out (opened o size ahead) datagrams)) →
        ahead_of timestamp base < 2 ^ 31) →
        AreDifferent (stamps_of (handed_out (opened o size ahead) datagrams)) }
{}

/// What [`Restarts`](crate::Restarts) notes says which answers came: where a timestamp stands, a
/// datagram of it was late or too far ahead, and none was kept since.
pub fn lost_since()
    ensures { (told : List Reply) (since : ℕ) → lost_behind None told ≡ Some since →
        AreLostSince told since }
{}

/// Where all that came of a stream is noted, each near the newest before it and none too far
/// ahead, a follower of as many frames as [`WindowNeed`](crate::WindowNeed) says, or more, would
/// have had none come too late: times in such an order are all handed out, by `whole_stream`.
pub fn needed_window()
    ensures { (size ahead : ℕ) (times : List ℕ) →
        AreNearby 16 times → AreWithin ahead times → size ≤ 16 →
        (noted_behind none_noted (map wrapped times)).need ≤ size → IsOrderly size ahead times }
{}
