use short_bytes::short::Bytes;

#[test]
fn no_bytes_are_an_empty_string(rt: HostRuntime) {
    assert!(rt; Bytes::none().list().is_empty());
}
