use serve_mode::*;

#[test]
fn words_of_the_mode(rt: HostRuntime) {
    let plain = read_serve_command("serve", &[]);
    let named = read_serve_command("serve", &["a.toml"]);
    assert!(&rt; matches!(plain, Some(ServeCommand::Plain)));
    let logged = read_serve_command("serve", &["a.toml", "log"]);
    assert!(&rt;
        matches!(
            named,
            Some(ServeCommand::Named {
                setup: "a.toml",
                log: None
            })
        )
    );
    assert!(&rt;
        matches!(
            logged,
            Some(ServeCommand::Named {
                setup: "a.toml",
                log: Some("log")
            })
        )
    );
    assert!(&rt; read_serve_command("serve", &["a", "b", "c"]).is_none());
    assert!(&rt; read_serve_command("Serve", &[]).is_none());
    assert!(&rt; read_serve_command("check", &["a"]).is_none());
}
