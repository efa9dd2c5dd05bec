// Copies of texts and of jobs.
ghost use Rattle.std.specs.Prelude.{◌≡◌, map, string_bytes, IfOk};
ghost use Rattle.account_hooks.specs.Drains.{job_of};

use crate::runs::HookJob;
use std::alloc::{AllocError, Global};

pub(crate) fn copy_all(alloc: Global, texts: &[String]) -> Result<Vec<String>, AllocError>
    ensures { IfOk result (λ copies. map string_bytes copies.items ≡ map string_bytes texts.now) }
{
    let mut copies = Vec::new(alloc);
    for text in texts {
        copies.push(String::from_str(alloc, text.as_str())?)?;
    }
    Ok(copies)
}

pub(crate) fn copy_job(alloc: Global, job: &HookJob) -> Result<HookJob, AllocError>
    ensures { IfOk result (λ copy. job_of copy ≡ job_of job.now) }
{
    Ok(HookJob {
        number: job.number,
        arguments: copy_all(alloc, &job.arguments)?,
    })
}
