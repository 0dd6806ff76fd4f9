// Captured streams in chunks, run as tests.
#![tactic(auto)]

#[cfg(test)]
mod tests {
    use inspector::capture::Capture;
    use std::alloc::{AllocError, Global};
    use std::test::Fail;
    use wire::kinds::Channel;

    // A Heartbeat, and a Logout that says "bye".
    const GOOD: &[u8] = b"\x02\x01\x000\x02\x15\x005bye\0\0\0\0\0\0\0\0\0\0\0\0\0\0\0\0\0";

    // A Logout whose reason is no text, a Heartbeat, and a Logout that is cut short.
    const BAD: &[u8] =
        b"\x02\x15\x005\x01ye\0\0\0\0\0\0\0\0\0\0\0\0\0\0\0\0\0\x02\x01\x000\x02\x15\x005bye";

    // What the messages of a chunk are answered, a line each.
    fn tell(
        heap: Global,
        capture: &mut Capture,
        chunk: &[u8],
        lines: &mut String,
    ) -> Result<(), AllocError> {
        let mut rest = chunk;
        for _ in 0..=chunk.len() {
            let Some(told) = capture.next(heap, rest)? else {
                break;
            };
            lines.push_str(told.answer.text.as_str())?;
            lines.push_str("\n")?;
            rest = &rest[told.used..];
        }
        Ok(())
    }

    // What a stream of three chunks is answered, with what its end is.
    fn told(heap: Global, one: &[u8], two: &[u8], three: &[u8]) -> Result<String, AllocError> {
        let mut lines = String::new(heap);
        let mut capture = Capture::new(Channel::RealTime);
        tell(heap, &mut capture, one, &mut lines)?;
        tell(heap, &mut capture, two, &mut lines)?;
        tell(heap, &mut capture, three, &mut lines)?;
        if let Some(answer) = capture.end(heap)? {
            lines.push_str(answer.text.as_str())?;
            lines.push_str("\n")?;
        }
        Ok(lines)
    }

    #[test]
    fn wherever_it_is_cut(rt: HostRuntime) -> Result<(), Fail> {
        let expected =
            "Heartbeat\nLogout LogoutReason=\"bye\"\nrefused 5 at 32\nHeartbeat\nrefused 1 at 57\n";
        for at in 0..=BAD.len() {
            let (two, three) = BAD.split_at(at);
            let lines = told(rt.alloc(), GOOD, two, three)?;
            assert_eq!(rt; lines.as_str(), expected);
        }
        for at in 0..=GOOD.len() {
            let (one, two) = GOOD.split_at(at);
            let lines = told(rt.alloc(), one, two, BAD)?;
            assert_eq!(rt; lines.as_str(), expected);
        }
        Ok(())
    }

    #[test]
    fn nothing_behind_what_is_no_message(rt: HostRuntime) -> Result<(), Fail> {
        let lines = told(rt.alloc(), b"\x02\x01\x000", b"\x03\x01\x000", GOOD)?;
        assert_eq!(rt; lines.as_str(), "Heartbeat\nrefused 2 at 4\n");
        let lines = told(rt.alloc(), b"\x02\x01\x000", b"\x02\x01\x00M", GOOD)?;
        assert_eq!(rt; lines.as_str(), "Heartbeat\nrefused 3 at 7\n");
        let lines = told(rt.alloc(), b"\x02\x01\x000", b"\x02\x02\x000", GOOD)?;
        assert_eq!(rt; lines.as_str(), "Heartbeat\nrefused 4 at 5\n");
        let lines = told(rt.alloc(), b"", b"\x02\x01", b"")?;
        assert_eq!(rt; lines.as_str(), "refused 1 at 1\n");
        Ok(())
    }
}
