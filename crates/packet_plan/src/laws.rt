//! Laws over the definitions alone. Each is the contract of a function that does nothing.
ghost use Rattle.std.specs.Prelude.{◌≡◌, ◌<◌, ◌≤◌, ◌+◌, ◌%◌, ◌^◌, Bool, ℕ, List, [], ◌∷◌, ◌++◌};
ghost use Rattle.std.specs.Prelude.{length};
ghost use Rattle.std.specs.List.{flat_map, range_with_len};
ghost use Rattle.st_format.specs.Picture.{IsPicture, Values};
ghost use Rattle.packet_plan.specs.declared.run.PacketRun.{PacketRun};
ghost use Rattle.packet_plan.specs.declared.stamp.Stamp.{Stamp};
ghost use Rattle.packet_plan.specs.Plan.{IsPacket, IsRasterPlan, numbers};
ghost use Rattle.st_format.specs.Position.{group_count};
ghost use Rattle.packet_plan.specs.Sender.{IsSenderList, Sender, stamp_of};
ghost use Rattle.packet_plan.specs.Sent.{IsSentPacket, IsSentPicture};
ghost use Rattle.packet_plan.specs.Text.{IsStamp, datagram_text, datagram_texts};

/// The text of a datagram is a datagram of the picture; the texts of all packets of a raster plan,
/// up to 9000 octets each, are the datagrams of the picture. So every picture can be sent by every
/// such plan.
pub fn text_is_sent()
    ensures datagram { (p : Values) (stamp : Stamp) (size i first count : ℕ) (is_last : Bool)
        (runs : List PacketRun)
        → size ≤ 9000 → IsPacket p.format size runs
        → flat_map (numbers p.format) runs ≡ range_with_len first count
        → first + count ≤ group_count p.format
        → IsPicture p → IsStamp stamp
        → IsSentPacket (datagram_text p stamp i is_last runs) p stamp i is_last runs }
    ensures picture { (p : Values) (stamp : Stamp) (size : ℕ) (packets : List (List PacketRun))
        → size ≤ 9000 → IsRasterPlan packets p.format size → IsPicture p → IsStamp stamp
        → IsSentPicture (datagram_texts p stamp 0 packets) p stamp size packets }
{}

/// Pictures sent in turn are a sender's list: nothing is one; and a list, followed by the datagrams
/// of the next picture by any raster plan, is one of one picture more, where the picture's
/// timestamp is that of its place and its numbers run on from the list's.
pub fn sent_in_turn()
    ensures none { (s : Sender) (first : ℕ) → IsSenderList [] s first [] }
    ensures more { (s : Sender) (first : ℕ) (pictures : List Values) (datagrams : List (List ℕ))
        (p : Values) (size : ℕ) (packets : List (List PacketRun)) (mine : List (List ℕ))
        → first < 2 ^ 32 → IsSenderList datagrams s first pictures → length pictures < 10000
        → p.format ≡ s.format
        → IsSentPicture mine
        p (stamp_of s (length pictures) ((first + length datagrams) % 2 ^ 32)) size packets
        → IsSenderList (datagrams ++ mine) s first (pictures ++ p ∷ []) }
{}
