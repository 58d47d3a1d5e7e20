use text_bytes::*;

#[test]
fn words_are_letters_digits_and_the_low_line(rt: HostRuntime) {
    for byte in 0..=127u8 {
        assert!(rt; is_word(byte) == (byte.is_ascii_alphanumeric() || byte == b'_'));
    }
}

#[test]
fn numbers_stop_at_64_bits(rt: HostRuntime) {
    assert!(rt; number_by(b"18446744073709551616") == Some(u64::MAX));
    assert!(rt; number_by(b"1x").is_none());
}
