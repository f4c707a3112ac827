ghost use Rattle.std.specs.Prelude.{◌≤◌};

use drill_mode::*;
use outside_memory::MemStream;
use std::alloc::Global;
use std::sync::Wait;
use std::test::*;
use std::thread::Threads;
use trouble::status_of;

/// Words that are no number of a drill, one a line.
const OTHERS: &str = "0
65
07
-1
+7
7 seven
seven
18446744073709551617";

/// The counts of the drill of 1.
const ONE: &str = "sessions 32
events 200
permitted 184
denied 16
accepted 8
rule 6 8
rule 15 8
end finished 16
end truncated 8
end violation 8
";

/// The counts of the drill of 7.
const SEVEN: &str = "sessions 224
events 1400
permitted 1288
denied 112
accepted 56
rule 6 56
rule 15 56
end finished 112
end truncated 56
end violation 56
";

/// The counts of the drill of 64.
const SIXTY_FOUR: &str = "sessions 2048
events 12800
permitted 11776
denied 1024
accepted 512
rule 6 512
rule 15 512
end finished 1024
end truncated 512
end violation 512
";

/// Whether the drill of a number tells this text.
fn tells<R: Threads + Wait + Sync>(rt: &R, alloc: Global, n: u32, text: &str) -> Result<bool, Fail>
    requires low { 1 ≤ n }
    requires high { n ≤ 64 }
{
    let mut ends = MemStream::new(alloc, &[], &[16], &[])?;
    let outcome = run_drill(rt, alloc, n, &mut ends);
    Ok(status_of(&outcome) == 0 && ends.sent() == text.as_bytes())
}

#[test]
fn drills_come_to_their_counts(rt: HostRuntime) -> Result<(), Fail> {
    assert!(rt; tells(&rt, rt.alloc(), 1, ONE)?);
    assert!(rt; tells(&rt, rt.alloc(), 7, SEVEN)?);
    assert!(rt; tells(&rt, rt.alloc(), 64, SIXTY_FOUR)?);
    Ok(())
}

/// Whether the argument after the mode's name stands for the drill of this number.
fn reads(word: &str, n: u32) -> bool {
    read_drill_command("drill", &[word]) == Some(n)
}

/// Whether a mode's word and another name no drill.
fn names_none(mode: &str, word: &str) -> bool {
    read_drill_command(mode, &[word]).is_none()
}

#[test]
fn words_name_a_drill(rt: HostRuntime) -> Result<(), Fail> {
    assert!(rt; reads("1", 1));
    assert!(rt; reads("7", 7));
    assert!(rt; reads("64", 64));
    for word in OTHERS.lines() {
        assert!(rt; names_none("drill", word), "{word}");
    }
    assert!(rt; names_none("serve", "7"));
    assert!(rt; names_none("drill", ""));
    assert!(rt; read_drill_command("drill", &[]).is_none());
    assert!(rt; read_drill_command("drill", &["7", "7"]).is_none());
    Ok(())
}
