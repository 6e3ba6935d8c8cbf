use crate::fakes::{CountingResponder, First, Note};
use crate::held::{ALL, Limits, goes, goes_joined, repeats};
use crate::known::{KnownPeer, Turn, hold};

#[test]
fn each_row_is_answered_before_the_next_read(rt: HostRuntime) {
    const CASES: [(&[&[u8]], &[u8]); 5] = [
        (&[], b"<.ended"),
        (&[b"a\n", b"b\n"], b"<a\n>1 a\n<b\n>2 b\n<.ended"),
        (&[b"a", b"b\nc", b"\n"], b"<a<b\nc>1 ab\n<\n>2 c\n<.ended"),
        (&[b"a\nb\nc\n"], b"<a\nb\nc\n>1 a\n2 b\n3 c\n<.ended"),
        (
            &[b"=\n-\n", b"-\n", b"a\n"],
            b"<=\n-\n>1 =\n1 =\n<-\n<a\n>4 a\n<.ended",
        ),
    ];
    for (pieces, wanted) in CASES {
        goes(&rt, rt.alloc(), pieces, ALL, wanted);
    }
}

#[test]
fn a_refused_row_stops_the_talk(rt: HostRuntime) {
    const CASES: [(&[&[u8]], &[u8]); 4] = [
        (&[b"a\n!\nb\n"], b"<a\n!\nb\n>1 a\n.bad"),
        (&[b"a\n!"], b"<a\n!>1 a\n<.bad"),
        (&[b"!\n"], b"<!\n.bad"),
        (&[b"a\n?\nb\n"], b"<a\n?\nb\n>1 a\n.memory"),
    ];
    for (pieces, wanted) in CASES {
        goes(&rt, rt.alloc(), pieces, ALL, wanted);
    }
}

#[test]
fn reads_and_writes_fail(rt: HostRuntime) {
    const PIECES: [&[u8]; 2] = [b"a\nb", b"c\n"];
    const CASES: [(u32, u32, &[u8]); 5] = [
        (0, 9, b".read"),
        (1, 9, b"<a\nb>1 a\n.read"),
        (2, 9, b"<a\nb>1 a\n<c\n>2 bc\n.read"),
        (9, 0, b"<a\nb.write"),
        (9, 1, b"<a\nb>1 a\n<c\n.write"),
    ];
    for (reads, writes, wanted) in CASES {
        goes(&rt, rt.alloc(), &PIECES, Limits { reads, writes }, wanted);
    }
}

#[test]
fn a_reader_and_a_writer_are_a_peer(rt: HostRuntime) {
    const WHOLE: &[u8] = b">1 a>\n|>2 b>\n|.ended<2";
    const CASES: [(First, &[u8]); 8] = [
        (First::Well, WHOLE),
        (First::ReadInterrupted, b">1 a>\n|>2 b>\n|.ended<3"),
        (First::ReadsInterrupted, b">1 a>\n|>2 b>\n|.ended<9"),
        (First::WriteInterrupted, WHOLE),
        (First::ReadFails, b".read<1"),
        (First::WriteFails, b".write<1"),
        (First::WriteTakesNone, b".write<1"),
        (First::FlushFails, b">1 a>\n.write<1"),
    ];
    for (first, wanted) in CASES {
        goes_joined(&rt, rt.alloc(), first, wanted);
    }
}

// Pieces that are a row each; a row of more octets than may reach a responder, of which 1,048,577 do; and a piece of
// rows that have two lines each.
#[test]
fn long_rows_and_many_rows_are_answered(rt: HostRuntime) {
    let long = [b'x'; 8192];
    let mut rows = [b'='; 8192];
    for (place, octet) in rows.iter_mut().enumerate() {
        if place % 2 == 1 {
            *octet = b'\n';
        }
    }
    repeats(&rt, rt.alloc(), b"a\n", 70_000, (70_000, 280_000));
    repeats(&rt, rt.alloc(), &long, 129, (1, 1_048_580));
    repeats(&rt, rt.alloc(), &rows, 1, (1, 32_768));
}

#[test]
fn a_known_talk_is_held(rt: HostRuntime) {
    let mut responder = CountingResponder { taken: 0 };
    let mut peer = KnownPeer {
        alloc: rt.alloc(),
        text: b"a\nb",
        turns: Vec::new(rt.alloc()),
    };
    let mut note = Note::none();
    // Where a growth is refused, nothing is asked of the turns.
    if hold(rt.alloc(), &mut responder, &mut peer).is_ok() {
        for turn in &peer.turns {
            match turn {
                Turn::Received(octets) => note.add(b'<', octets),
                Turn::Sent(octets) => note.add(b'>', octets),
            }
        }
        assert_eq!(&rt; note.text(), b"<a\nb>1 a\n<>2 b\n".as_slice());
    }
}
