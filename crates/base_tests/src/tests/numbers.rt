use numerals::parse_numeral;

#[test]
fn parses_numerals(rt: HostRuntime) {
    for (text, number) in [
        ("0", Some(0u64)),
        ("7", Some(7)),
        ("10", Some(10)),
        ("18446744073709551615", Some(18446744073709551615)),
        ("18446744073709551616", None),
        ("00", None),
        ("01", None),
        ("+1", None),
        ("-1", None),
        ("", None),
        (" 1", None),
        ("1 ", None),
        ("1a", None),
        ("\u{661}", None),
    ] {
        assert_eq!(rt; parse_numeral(text), number, "{text}");
    }
}
