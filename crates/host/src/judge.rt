// Judging a file, called from C.
ghost use Rattle.flatten.specs.Verdict.{Speaks};
ghost use Rattle.meeting.specs.Meeting.{SpeaksPair};

// Judges a file's bytes: number times 65,536 plus position, check 2 not made; 13 for any two records that meet.
pub fn berxundar_judge(file: &[u8]) -> u32
    ensures { Speaks file.now result }
{
    match flatten::verdict(file) {
        Ok(()) => 0,
        Err(refusal) => 65536 * refusal.number + refusal.position,
    }
}

// Judges a file's bytes: number times 2^32 plus position times 65,536 plus the earlier record of two that meet.
pub fn berxundar_judge_pair(file: &[u8]) -> u64
    ensures { SpeaksPair file.now result }
{
    match meeting::judge(file) {
        Ok(()) => 0,
        Err(refusal) => {
            let number = refusal.number as u64;
            let position = refusal.position as u64;
            let earlier = refusal.earlier as u64;
            4294967296 * number + 65536 * position + earlier
        }
    }
}
