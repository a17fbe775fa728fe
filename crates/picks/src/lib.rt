// The choice by a test and the scan that definitions use, and the laws that proofs about them cite. No code.
#![tactic(auto)]
