// The program `job`: a job in words on standard input, its records on standard output. SPEC, "Jobs in words".
#![tactic(auto)]

ghost use Rattle.job_words.specs.Rows.{job_of};

use program_filter::MeasuredFilter;

struct Job;

impl MeasuredFilter for Job {
    ghost text = { job_of };

    ghost space = { 458753 };

    ghost room = { 65536 };

    fn put(out: &mut [u8], bytes: &[u8]) -> usize {
        job_words::put(out, bytes)
    }
}

fn main(rt: HostRuntime) {
    if program_usage::told(
        &rt,
        &mut rt.stderr(),
        b"usage: job < WORDS > JOB\nThe records that lines of words say.\n",
    ) {
        return;
    }
    program_filter::run_measured::<Job, _, 458753, 65536>(&rt);
}
