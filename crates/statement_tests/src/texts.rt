//! The words of refusals that no statement has yet, as the format describes them.
use result_text::put_refusal;
use std::test::Fail;
use ts_model::Refusal;

#[test]
fn refusals_have_their_words_and_tails(rt: HostRuntime) -> Result<(), Fail> {
    let words = [
        (25, b"FAULT E25 image_long @3 bytes 11\n".as_slice()),
        (26, b"FAULT E26 bad_policy @3\n"),
        (27, b"FAULT E27 too_many_policies @3 count 11\n"),
        (28, b"FAULT E28 bad_rollup @3\n"),
        (29, b"FAULT E29 bad_unit @3\n"),
        (30, b"FAULT E30 history_full @3\n"),
        (0, b"FAULT E00 unnamed\n"),
        (31, b"FAULT E31 unnamed\n"),
        (255, b"FAULT E255 unnamed\n"),
    ];
    for (code, text) in words {
        let mut out = Vec::new(rt.alloc());
        put_refusal(
            &Refusal {
                code,
                pos: 3,
                mark: 11,
            },
            &mut out,
        )?;
        assert!(rt; out.as_slice() == text, "{code}");
    }
    Ok(())
}
