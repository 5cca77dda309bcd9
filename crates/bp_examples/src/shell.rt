//! Tests of real files. Rows over the devices in memory show the rest (docs/rows.md).

use bp_disk::{DiskFiles, StdSink, StdSource};
use bp_io::{FairSource, MemSink};
use bp_shell::{Status, run};
use bp_volume::Volume;
use pm_raw::RawRegion;
use std::fs;

#[test]
fn real_files_are_served(rt: HostRuntime) {
    let alloc = rt.alloc();
    let mut files = DiskFiles::new(alloc, &rt).expect(&rt, "there is memory");
    fs::write(&rt, "script", "create /a\nlist /\n").expect(&rt, "it is written");
    let mut sink = StdSink::new(fs::create(&rt, "replies").expect(&rt, "it is made"));
    let mut source = StdSource::new(fs::open(&rt, "script").expect(&rt, "it is there"));
    let words = ["bpfs", "format", "real.img", "--blocks", "8"];
    assert_eq!(rt;
        run::<Volume<RawRegion>, _, _, _>(alloc, &words, &mut source, &mut sink, &mut files),
        Status::Done
    );
    let words = ["bpfs", "run", "real.img"];
    assert_eq!(rt;
        run::<Volume<RawRegion>, _, _, _>(alloc, &words, &mut source, &mut sink, &mut files),
        Status::Done
    );
    let reported = fs::read(&rt, "replies").expect(&rt, "they are there");
    assert_eq!(rt;
        reported.as_slice(),
        b"formatted 8 6\nok\nentry f a\nend\n".as_slice()
    );
    let image = fs::read(&rt, "real.img").expect(&rt, "it is there");
    assert_eq!(rt; image.len(), 32_768);
    fs::remove_file(&rt, "real.img").expect(&rt, "it is removed");
    fs::remove_file(&rt, "script").expect(&rt, "it is removed");
    fs::remove_file(&rt, "replies").expect(&rt, "it is removed");
}

#[test]
fn real_files_are_refused(rt: HostRuntime) {
    let alloc = rt.alloc();
    let mut files = DiskFiles::new(alloc, &rt).expect(&rt, "there is memory");
    let mut source = FairSource::new(b"");
    let mut sink = MemSink::new(alloc, 128, &[]).expect(&rt, "there is memory");
    let words = ["bpfs", "run", "missing.img"];
    assert_eq!(rt;
        run::<Volume<RawRegion>, _, _, _>(alloc, &words, &mut source, &mut sink, &mut files),
        Status::Missing
    );
    fs::write(&rt, "short.img", "no image").expect(&rt, "it is written");
    let words = ["bpfs", "run", "short.img"];
    assert_eq!(rt;
        run::<Volume<RawRegion>, _, _, _>(alloc, &words, &mut source, &mut sink, &mut files),
        Status::Refused
    );
    assert_eq!(rt;
        sink.bytes(),
        b"err 34 nofile\nerr 31 badsize 8 32768\n".as_slice()
    );
    let image = fs::read(&rt, "short.img").expect(&rt, "it is there");
    assert_eq!(rt; image.as_slice(), b"no image".as_slice());
    fs::remove_file(&rt, "short.img").expect(&rt, "it is removed");
}
